// An array by node: the conditions that its processes decide, as masks.
ghost use Rattle.std.specs.Prelude.{◌≡◌, ℕ, ◌<◌, ◌≤◌};
ghost use Rattle.limits.specs.Limits.{NODES, PROCESSES, CONDITIONS};
ghost use Rattle.plan.specs.Tests.{at};
ghost use Rattle.plan_layout.specs.NodeArrays.{decided_by_node};

use arrays::wide;
use limits::{CONDITIONS, NODES, PROCESSES};

// The conditions that the processes of each node decide, as masks: the bit of each condition is added to the mask of
// its decider's node.
pub(crate) fn decided_by_node<'a>(
    decider: &'a [u32; CONDITIONS],
    node: &'a [u32; PROCESSES],
    conditions: usize,
) -> [u32; NODES]
    requires fact_1 { conditions ≤ CONDITIONS }
    requires fact_2 { ((k : ℕ) → at decider.now k < PROCESSES) }
    requires fact_3 { ((i : ℕ) → at node.now i < NODES) }
    ensures { result ≡ decided_by_node decider.now node.now conditions }
{
    let mut decides = [0u32; NODES];
    for k in 0..conditions {
        let i = wide(decider[k]);
        let n = wide(node[i]);
        decides[n] += 1 << k;
    }
    decides
}
