// The messages of a node that are ready and not sent, listed in the order of the queue.
ghost use Rattle.std.specs.Prelude.{◌≡◌, ◌<◌, ◌≤◌, length};
ghost use Rattle.limits.specs.Limits.{EDGES};
ghost use Rattle.plan_index.specs.Index.{laid, Bounded};
ghost use Rattle.log_rows.specs.Rows.{rows_of};
ghost use Rattle.planner_nodes.specs.Nodes.{nodes_of, with_wait};
ghost use Rattle.planner_sends.specs.Packing.{Listed};
ghost use Rattle.planner_sends.specs.Pending.{waits_to_send, waiting_of};

use log_queries::message_ready;
use log_rows::{Rows, comes_of};
use plan_index::{Index, processes_of, queue_of};
use planner_nodes::{Nodes, put_wait};

// The message of edge e is ready and not sent.
fn waits(index: &Index, rows: &Rows, e: usize, u: u32) -> bool
    requires { (e < EDGES) × Bounded (laid index.now) }
    ensures { result ≡ waits_to_send (laid index.now) (rows_of rows.now) u e }
{
    comes_of(rows, processes_of(index) + e) == 0 && message_ready(index, rows, e, u)
}

// Stores the messages of queue[a .. b] that are ready and not sent, in the order of the queue, from place a of `wait`
// on. The place behind them.
pub(crate) fn find_waiting(
    index: &Index,
    rows: &Rows,
    a: usize,
    b: usize,
    u: u32,
    nodes: &mut Nodes,
) -> usize
    requires { (a ≤ b) × (b ≤ EDGES) × Bounded (laid index.now) × (length (nodes_of nodes.old).wait ≡ EDGES) }
    ensures listed { Listed (nodes_of nodes.old).wait (nodes_of nodes.new).wait a result
        (waiting_of (laid index.now) (rows_of rows.now) u a b) }
    ensures upto { result ≤ b }
    ensures rest { nodes_of nodes.new ≡ with_wait (nodes_of nodes.new).wait
        (nodes_of nodes.old) }
{
    let mut k = a;
    for j in a..b {
        let e = queue_of(index, j);
        if waits(index, rows, e, u) {
            put_wait(nodes, k, e as u32);
            k += 1;
        }
    }
    k
}
