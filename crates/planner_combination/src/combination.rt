// The planning of one combination, from event to event, until none is left. specs/Events.antt says where a run of
// events leads.
ghost use Rattle.std.specs.Prelude.{◌≡◌, replicate};
ghost use Rattle.limits.specs.Limits.{NODES, NEVER};
ghost use Rattle.plan_index.specs.Index.{laid};
ghost use Rattle.log_rows.specs.Rows.{rows_of};
ghost use Rattle.planner_nodes.specs.Nodes.{nodes_of, with_lastarrival, with_nextsend};
ghost use Rattle.planner_combination.specs.Events.{Fits};
ghost use Rattle.planner_combination.specs.Planning.{Plannable, Planned};

use crate::event::{Clocks, event};
use limits::{LASTCLOCK, NEVER, NODES};
use log_rows::Rows;
use plan_index::Index;
use planner_nodes::{Nodes, put_lastarrival, put_nextsend};

// Says of each node that an item last arrives at it at clock `start`, and that its slot takes none.
fn begin_nodes(start: u32, nodes: &mut Nodes)
    requires { ((nodes_of nodes.old).nextsend ≡ replicate NODES 0)
        × ((nodes_of nodes.old).lastarrival ≡ replicate NODES 0) }
    ensures { nodes_of nodes.new ≡ with_nextsend (replicate NODES NEVER)
        (with_lastarrival (replicate NODES start) (nodes_of nodes.old)) }
{
    for n in 0..NODES {
        put_lastarrival(nodes, n, start);
        put_nextsend(nodes, n, NEVER);
    }
}

// Plans one combination from clock `start` on, where `rows` and `nodes` hold what was placed, counted and noted before.
// By node it is kept from event to event when an item last arrives at the node, when its slot next takes one and which
// messages wait, so that an event works out again only what changed.
pub fn plan_combination(index: &Index, start: u32, rows: &mut Rows, nodes: &mut Nodes)
    requires { Fits (laid index.now) × Plannable (laid index.now) start (rows_of rows.old)
        (nodes_of nodes.old) }
    ensures { Planned (laid index.now) start (rows_of rows.old)
        (nodes_of nodes.old) (rows_of rows.new) (nodes_of nodes.new) }
{
    begin_nodes(start, nodes);
    let mut at = Clocks {
        u: start,
        come: start,
        slotend: 0,
        broadcastend: start,
        ends: start,
        begun: 0,
    };
    while at.u <= LASTCLOCK {
        at = event(index, at, rows, nodes);
    }
}
