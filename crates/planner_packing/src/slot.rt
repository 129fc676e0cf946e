// What the slot of a node takes as it begins, at which nodes that arrives, and when the slot next takes something.
// specs/Sending.antt says the same of the arrays.
ghost use Rattle.std.specs.Prelude.{◌≡◌, ◌<◌, ◌≤◌, get_or, unwrap_or, IfSome};
ghost use Rattle.limits.specs.Limits.{NODES, LASTCLOCK};
ghost use Rattle.plan_index.specs.Index.{laid, Bounded};
ghost use Rattle.log_rows.specs.Rows.{rows_of};
ghost use Rattle.planner_nodes.specs.Nodes.{nodes_of, with_passed};
ghost use Rattle.planner_sends.specs.NextSends.{Timed};
ghost use Rattle.planner_packing.specs.Sending.{counted, Sendable, Fills, Sends};

use crate::packing::send;
use log_rows::Rows;
use plan_index::{Index, lasts_of, round_of};
use planner_nodes::{Nodes, passed_of, put_nextsend, put_passed, put_waitend};
use planner_sends::next_round;

// Counts a slot of node n in which a ready item was not taken, if one was not.
fn pass_over(short: bool, n: usize, nodes: &mut Nodes)
    requires { (n < NODES) × (get_or (nodes_of nodes.old).passed n 0 ≤ LASTCLOCK) }
    ensures { nodes_of nodes.new
        ≡ with_passed (counted short n (nodes_of nodes.old).passed) (nodes_of nodes.old) }
{
    if short {
        let count = passed_of(nodes, n);
        put_passed(nodes, n, count + 1);
    }
}

// The end of the last slot used, and of the last one with a broadcast.
#[derive(Clone, Copy)]
pub struct Ends {
    pub slotend: u32,
    pub broadcastend: u32,
}

// The end of the last slot used, and of the last one with a broadcast; whether a ready item was not taken; and the
// place behind the messages that are left.
#[derive(Clone, Copy)]
struct Filled {
    slotend: u32,
    broadcastend: u32,
    short: bool,
    behind: u32,
}

// The slot of node n takes its items at clock u.
fn fill(index: &Index, n: usize, u: u32, ends: Ends, rows: &mut Rows, nodes: &mut Nodes) -> Filled
    requires { (n < (laid index.now).slots) × (u ≤ LASTCLOCK) × Bounded (laid index.now)
        × Timed (laid index.now) × Sendable (laid index.now) (nodes_of nodes.old) n u }
    ensures { Fills (laid index.now) n u ends (rows_of rows.old)
        (nodes_of nodes.old) result (rows_of rows.new) (nodes_of nodes.new) }
{
    let end = u + lasts_of(index, n);
    let sent = send(index, n, u, end, rows, nodes);
    let behind = sent.behind as u32;
    pass_over(sent.short, n, nodes);
    let used = if sent.used == 0 { ends.slotend } else { end };
    let heard = if sent.broadcast {
        end
    } else {
        ends.broadcastend
    };
    Filled {
        slotend: used,
        broadcastend: heard,
        short: sent.short,
        behind,
    }
}

// The slot of a node takes its items at clock u, if one does; and what is kept by node goes on from there: at which
// nodes an item arrives, and when the slot of the node next takes one, a round later if one is left.
pub fn send_slot(
    index: &Index,
    node: Option<usize>,
    u: u32,
    ends: Ends,
    rows: &mut Rows,
    nodes: &mut Nodes,
) -> Ends
    requires { (u ≤ LASTCLOCK) × Bounded (laid index.now) × Timed (laid index.now)
        × Sendable (laid index.now) (nodes_of nodes.old) (unwrap_or node (laid index.now).slots) u
        × IfSome node (λ n. n < (laid index.now).slots) }
    ensures { Sends (laid index.now) (unwrap_or node (laid index.now).slots) u ends (rows_of rows.old)
        (nodes_of nodes.old) result (rows_of rows.new) (nodes_of nodes.new) }
{
    let Some(n) = node else {
        return ends;
    };
    let s = fill(index, n, u, ends, rows, nodes);
    put_waitend(nodes, n, s.behind);
    let next = next_round(round_of(index), u, s.short);
    put_nextsend(nodes, n, next);
    Ends {
        slotend: s.slotend,
        broadcastend: s.broadcastend,
    }
}
