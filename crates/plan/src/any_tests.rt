// Tests of refusals 4, 5 and 7: what stands twice among numbers or edges.
ghost use Rattle.std.specs.Prelude.{◌≡◌, ℕ, ◌<◌, get_or, length, map, replicate};
ghost use Rattle.limits.specs.Limits.{PROCESSES};
ghost use Rattle.lists.specs.Lists.{repeated};
ghost use Rattle.model.specs.Refusals.{twin_edges};
ghost use Rattle.plan.specs.Bounds.{Few};
ghost use Rattle.plan.specs.Memory.{edge_of, no_edge, lines};

use crate::{Edge, Plan};
use arrays::wide;
use limits::PROCESSES;

// Pairs of processes.
const PAIRS: usize = PROCESSES * PROCESSES;

// One of the numbers stands twice.
pub fn any_twice(xs: &[u32]) -> bool
    ensures { result ≡ repeated xs.now }
{
    for (i, x) in xs.iter().enumerate() {
        if xs[..i].contains(x) {
            return true;
        }
    }
    false
}

// Two slots share a node.
pub fn shared_node(p: &Plan) -> bool
    requires { Few p.now }
    ensures { result ≡ repeated (map (λ s. s.node) (lines p.now).slots) }
{
    let nodes = p.slot.map(|s| s.node);
    any_twice(&nodes[..p.slots])
}

// No pair seen yet: a function, so that no goal holds the 4,096 zeros.
fn no_marks() -> [u8; PAIRS]
    ensures { result ≡ replicate 4096 0 }
{
    [0u8; PAIRS]
}

// Two edges share both `from` and `to`.
pub fn twin_edges(edges: &[Edge]) -> bool
    requires { (i : ℕ) → i < length edges.now → ((get_or edges.now i no_edge).from < PROCESSES)
        × ((get_or edges.now i no_edge).to < PROCESSES) }
    ensures { result ≡ twin_edges (map edge_of edges.now) }
{
    let mut seen = no_marks();
    for e in edges {
        let k = wide(e.from) * PROCESSES + wide(e.to);
        if seen[k] == 1 {
            return true;
        }
        seen[k] = 1;
    }
    false
}
