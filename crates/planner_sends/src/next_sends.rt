// When the slot of each node next takes an item, and which messages wait there, looked up again where something
// changes. specs/NextSends.antt says the same of the arrays.
ghost use Rattle.std.specs.Prelude.{◌≡◌, ◌-◌, ◌<◌, ◌≤◌, ◌||◌, eqb, length};
ghost use Rattle.limits.specs.Limits.{EDGES, ROUNDTICKS, LASTCLOCK};
ghost use Rattle.plan_index.specs.Index.{laid, Bounded};
ghost use Rattle.log_rows.specs.Rows.{rows_of};
ghost use Rattle.planner_nodes.specs.Nodes.{nodes_of};
ghost use Rattle.bus_timetable.specs.Bus.{round_beginning_at, Carried};
ghost use Rattle.planner_sends.specs.NextSends.{next_send_from, next_round, pending_at, Timed, Updatable};
ghost use Rattle.planner_sends.specs.NextSends.{Relists, UpdatesNode, Updates};

use crate::broadcasts::has_broadcast;
use crate::messages::find_waiting;
use bitset::{lowest_node, without_lowest_node};
use bus_timetable::{first_beginning, round_beginning};
use limits::NEVER;
use log_rows::Rows;
use plan_index::{Index, offset_of, queuefirst_of, reciprocal_of, round_of, slots_of};
use planner_nodes::{Nodes, busy_of, put_nextsend, put_waitend};

// Whether node n has an item pending at clock u.
fn has_pending(index: &Index, rows: &Rows, n: usize, u: u32, nodes: &mut Nodes) -> bool
    requires { (n < (laid index.now).slots) × Bounded (laid index.now) × Timed (laid index.now)
        × (length (nodes_of nodes.old).wait ≡ EDGES) }
    ensures pending { result ≡ pending_at (laid index.now) (rows_of rows.now) u n }
    ensures waits { Relists (laid index.now) (rows_of rows.now) u n
        (nodes_of nodes.old) (nodes_of nodes.new) }
{
    let a = queuefirst_of(index, n);
    let b = queuefirst_of(index, n + 1);
    let z = find_waiting(index, rows, a, b, u, nodes);
    put_waitend(nodes, n, z as u32);
    a < z || has_broadcast(index, rows, n, u)
}

// The beginning of the round that the tick of clock u lies in, where `begun` is the beginning of a round at or before
// it.
pub fn current_round(index: &Index, begun: u32, u: u32) -> u32
    requires { (1 ≤ u) × (u ≤ LASTCLOCK) × Timed (laid index.now)
        × Carried (laid index.now).round begun (u - 1) }
    ensures { result ≡ round_beginning_at (laid index.now).round (u - 1) }
{
    let tick = u - 1;
    round_beginning(round_of(index), reciprocal_of(index), begun, tick)
}

// The clock of the first beginning of a slot from a tick on where its node has an item pending, or `NEVER` where it has
// none. `begun` is the beginning of the round that the tick lies in.
fn next_send_from(round: u32, begun: u32, offset: u32, tick: u32, pending: bool) -> u32
    requires { (1 ≤ round) × (round ≤ ROUNDTICKS) × (offset ≤ round) × (tick ≤ LASTCLOCK)
        × (begun ≡ round_beginning_at round tick) }
    ensures { result ≡ next_send_from round offset tick pending }
{
    if pending {
        first_beginning(round, begun, offset, tick) + 1
    } else {
        NEVER
    }
}

// The clock at which a slot that begins at clock u next takes an item, where it left one: a round later; or `NEVER`
// where it left none.
pub fn next_round(round: u32, u: u32, left: bool) -> u32
    requires { (round ≤ ROUNDTICKS) × (u ≤ LASTCLOCK) }
    ensures { result ≡ next_round round u left }
{
    if left { u + round } else { NEVER }
}

// Whether the items that a node has pending may change at clock u: a broadcast arrives, or the node's last process
// ends.
fn may_change(broadcastend: u32, end: u32, u: u32) -> bool
    ensures { result ≡ (eqb broadcastend u || eqb end u) }
{
    broadcastend == u || end == u
}

// When the slot of node n next takes an item, as seen at clock u: looked up again where a broadcast arrives or the
// node's last process ends. `begun` is the beginning of the round that the clock's tick lies in.
fn update_next_send(
    index: &Index,
    rows: &Rows,
    broadcastend: u32,
    n: usize,
    u: u32,
    begun: u32,
    nodes: &mut Nodes,
)
    requires { (n < (laid index.now).slots) × (1 ≤ u) × (u ≤ LASTCLOCK) × Bounded (laid index.now)
        × Timed (laid index.now) × (length (nodes_of nodes.old).wait ≡ EDGES)
        × (begun ≡ round_beginning_at (laid index.now).round (u - 1)) }
    ensures { UpdatesNode (laid index.now) (rows_of rows.now) broadcastend u n
        (nodes_of nodes.old) (nodes_of nodes.new) }
{
    if may_change(broadcastend, busy_of(nodes, n), u) {
        let some = has_pending(index, rows, n, u, nodes);
        let tick = u - 1;
        let next = next_send_from(round_of(index), begun, offset_of(index, n), tick, some);
        put_nextsend(nodes, n, next);
    }
}

// When the slot of each node next takes an item, as seen at clock u. Where nothing changes at it (`come` is not u),
// that is as before. `new` is the mask of the nodes for which something is new at u; for the others it is as before
// too. `begun` is the beginning of the round that the clock's tick lies in.
pub fn update_next_sends(
    index: &Index,
    rows: &Rows,
    come: u32,
    broadcastend: u32,
    u: u32,
    new: u32,
    begun: u32,
    nodes: &mut Nodes,
)
    requires { (1 ≤ u) × (u ≤ LASTCLOCK) × Bounded (laid index.now) × Timed (laid index.now)
        × Updatable (laid index.now) broadcastend u new (nodes_of nodes.old)
        × (begun ≡ round_beginning_at (laid index.now).round (u - 1)) }
    ensures { Updates (laid index.now) (rows_of rows.now) come broadcastend u
        (nodes_of nodes.old) (nodes_of nodes.new) }
{
    if come != u {
        return;
    }
    let mut left = new;
    while left != 0 {
        let n = lowest_node(left) as usize;
        if n < slots_of(index) {
            update_next_send(index, rows, broadcastend, n, u, begun, nodes);
        }
        left = without_lowest_node(left);
    }
}
