// What a slot takes as it begins: the pending broadcasts of its node, lowest condition number first, then the messages
// that wait in the order of the queue, side by side from byte 0. specs/Sending.antt says the same of the arrays.
ghost use Rattle.std.specs.Prelude.{◌≡◌, ℕ, ◌+◌, ◌-◌, ◌<◌, ◌≤◌, leb, length, get_or, if◌then◌else◌};
ghost use mathlib.Core.List.{Memᴰ as In};
ghost use Rattle.limits.specs.Limits.{NODES, EDGES};
ghost use Rattle.plan_index.specs.Index.{laid, Bounded};
ghost use Rattle.log_rows.specs.Rows.{rows_of};
ghost use Rattle.planner_nodes.specs.Nodes.{nodes_of, with_lastarrival, with_wait};
ghost use Rattle.log_queries.specs.Reading.{part};
ghost use Rattle.planner_sends.specs.Packing.{arrive_all, Listed};
ghost use Rattle.planner_sends.specs.NextSends.{Roomy, Timed};
ghost use Rattle.planner_packing.specs.Sending.{lay_row, lay_node, Takes, Sendable, SendsAll};

use arrays::wide;
use log_rows::{Rows, put_comes, put_place};
use plan_index::{
    Index, bytes_of, conditionrow_of, processes_of, queuefirst_of, remote_of, rooms_of, slots_of,
};
use planner_nodes::{Nodes, put_lastarrival, put_wait, wait_of, waitend_of};
use planner_sends::{Taken, pending_broadcasts, take_broadcasts};

// Moves the messages that wait at the places from j to before z down to place k. The place behind them. `copy_within`
// is no plainer: a place of `Nodes` would be named by its offset, and not by its reader and store.
fn move_down(nodes: &mut Nodes, k: usize, j: usize, z: usize) -> usize
    requires { (k ≤ j) × (j ≤ z) × (z ≤ EDGES) × (length (nodes_of nodes.old).wait ≡ EDGES) }
    ensures listed { Listed (nodes_of nodes.old).wait (nodes_of nodes.new).wait k result
        (part (nodes_of nodes.old).wait j z) }
    ensures behind { result ≡ k + (z - j) }
    ensures rest { nodes_of nodes.new ≡ with_wait (nodes_of nodes.new).wait
        (nodes_of nodes.old) }
{
    let mut to = k;
    for i in j..z {
        let e = wait_of(nodes, i);
        put_wait(nodes, to, e);
        to += 1;
    }
    to
}

// Whether the message of edge e fits so many bytes.
fn fits(index: &Index, e: u32, left: u32) -> bool
    requires { (e < EDGES) × Bounded (laid index.now) }
    ensures { result ≡ leb (get_or (laid index.now).bytes e 0) left }
{
    bytes_of(index, wide(e)) <= left
}

// The message of edge e goes with the slot that ends at `end`, from byte `used` on, and arrives at its receiver.
fn lay(index: &Index, e: usize, used: u32, end: u32, rows: &mut Rows, nodes: &mut Nodes)
    requires { (e < EDGES) × (1 ≤ get_or (laid index.now).remote e 0) × Bounded (laid index.now) }
    ensures rows { rows_of rows.new ≡ lay_row (laid index.now) e used end
        (rows_of rows.old) }
    ensures arrivals { nodes_of nodes.new ≡ lay_node (laid index.now) e end
        (nodes_of nodes.old) }
{
    let row = processes_of(index) + e;
    put_comes(rows, row, end);
    put_place(rows, row, used);
    let to = wide(remote_of(index, e));
    put_lastarrival(nodes, to - 1, end);
}

// What a slot took: the bytes used, whether a ready item was not taken, and the place behind the messages that are
// left.
#[derive(Clone, Copy)]
struct Packed {
    used: u32,
    short: bool,
    behind: usize,
}

// Then the messages that wait at the places from a to before z, in the order of the queue. One that does not fit the
// bytes left is passed over and the next is tried; the scan is left when the slot is full or the candidates end. Those
// that are left stand from place a on.
fn take_messages(
    index: &Index,
    a: usize,
    z: usize,
    room: u32,
    end: u32,
    first: Taken,
    rows: &mut Rows,
    nodes: &mut Nodes,
) -> Packed
    requires { (a ≤ z) × (z ≤ EDGES) × (first.used ≤ room) × Bounded (laid index.now)
        × Roomy (nodes_of nodes.old).wait (nodes_of nodes.old).waitend
        × ((e : ℕ) → In e (part (nodes_of nodes.old).wait a z) → 1 ≤ get_or (laid index.now).remote e 0) }
    ensures { Takes (laid index.now) a z room end first (rows_of rows.old)
        (nodes_of nodes.old) result (rows_of rows.new) (nodes_of nodes.new) }
{
    let mut used = first.used;
    let mut short = first.short;
    let mut k = a;
    let mut next = a;
    let mut j = a;
    // Nested loops, and a label that is left: document 01 asks for this form by name.
    'slot: while j < z {
        let left = room - used;
        if left == 0 {
            short = true;
            break 'slot;
        }
        // on to the next that fits
        while !fits(index, wait_of(nodes, j), left) {
            short = true;
            j += 1;
            if j == z {
                break 'slot;
            }
        }
        k = move_down(nodes, k, next, j);
        let e = wide(wait_of(nodes, j));
        lay(index, e, used, end, rows, nodes);
        used += bytes_of(index, e);
        j += 1;
        next = j;
    }
    let behind = move_down(nodes, k, next, z);
    Packed {
        used,
        short,
        behind,
    }
}

// An item arrives at every node at clock `end`.
fn arrive_all(slots: usize, end: u32, nodes: &mut Nodes)
    requires { slots ≤ NODES }
    ensures { nodes_of nodes.new
        ≡ with_lastarrival (arrive_all end slots (nodes_of nodes.old).lastarrival)
        (nodes_of nodes.old) }
{
    for n in 0..slots {
        put_lastarrival(nodes, n, end);
    }
}

// A broadcast, if there is one among the items, arrives at every node.
fn arrive(broadcast: bool, slots: usize, end: u32, nodes: &mut Nodes)
    requires { slots ≤ NODES }
    ensures { nodes_of nodes.new
        ≡ with_lastarrival (if broadcast then arrive_all end slots (nodes_of nodes.old).lastarrival else
        (nodes_of nodes.old).lastarrival) (nodes_of nodes.old) }
{
    if broadcast {
        arrive_all(slots, end, nodes);
    }
}

// What a slot took: the bytes used, whether a broadcast is among the items, whether a ready item was not taken, and the
// place behind the messages that are left.
#[derive(Clone, Copy)]
pub struct Sent {
    pub used: u32,
    pub broadcast: bool,
    pub short: bool,
    pub behind: usize,
}

// Enters all that the slot of node n takes at clock u in the rows: `comes` has the clock at which an item arrives,
// `place` its first byte in the frame. The slot ends at clock `end`. By node, the messages that are left stand from the
// place of the node's queue on, and `lastarrival` has the slot's end for each node at which an item arrives.
pub(crate) fn send(
    index: &Index,
    n: usize,
    u: u32,
    end: u32,
    rows: &mut Rows,
    nodes: &mut Nodes,
) -> Sent
    requires { (n < (laid index.now).slots) × Bounded (laid index.now) × Timed (laid index.now)
        × Sendable (laid index.now) (nodes_of nodes.old) n u }
    ensures { SendsAll (laid index.now) n u end (rows_of rows.old)
        (nodes_of nodes.old) result (rows_of rows.new) (nodes_of nodes.new) }
{
    let a = queuefirst_of(index, n);
    let z = waitend_of(nodes, n);
    let room = rooms_of(index, n);
    let mask = pending_broadcasts(index, rows, n, u);
    let first = take_broadcasts(mask, conditionrow_of(index), room, end, rows);
    let broadcast = 0 < first.used;
    arrive(broadcast, slots_of(index), end, nodes);
    let all = take_messages(index, a, z, room, end, first, rows, nodes);
    Sent {
        used: all.used,
        broadcast,
        short: all.short,
        behind: all.behind,
    }
}
