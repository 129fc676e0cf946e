// Whether the pass-over counts that a listing states are those of the plan.
ghost use Rattle.std.specs.Prelude.{◌≡◌, ◌≤◌, length, take};
ghost use Rattle.limits.specs.Limits.{NODES};
ghost use Rattle.lists.specs.Lists.{same_numbers};

use limits::NODES;

// Whether the counts of the first n nodes are the same, node by node.
pub(crate) fn same_counts(a: &[u32; NODES], b: &[u32; NODES], n: usize) -> bool
    requires { (n ≤ NODES) × (length a.now ≡ NODES) × (length b.now ≡ NODES) }
    ensures { result ≡ same_numbers (take n a.now) (take n b.now) }
{
    a[..n] == b[..n]
}
