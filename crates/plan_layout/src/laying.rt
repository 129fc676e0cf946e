// A plan's arrays stored one behind the other in a plan index.
ghost use Rattle.std.specs.Prelude.{◌≡◌, ◌+◌, ◌≤◌};
ghost use Rattle.plan_index.specs.Index.{WORDS};
ghost use Rattle.plan_layout.specs.Laying.{Stored};

use arrays::copy_at;
use plan_index::Index;

// Stores an array from place `at` of a plan index on.
pub(crate) fn lay<const N: usize>(numbers: &[u32; N], at: usize, index: &mut Index)
    requires { at + N ≤ WORDS }
    ensures { Stored at N numbers.now index.old index.new }
{
    copy_at(numbers, index, at);
}
