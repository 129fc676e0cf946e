// Tests of refusals 2 to 9 on the counts of a plan, on one number and on one line.
ghost use Rattle.std.specs.Prelude.{◌≡◌, ◌<◌, map};
ghost use Rattle.model.specs.Refusals.{outside, wrong_counts, wrong_plan, wrong_ends, wrong_when};
ghost use Rattle.model.specs.Bus.{slot_among};
ghost use Rattle.plan.specs.Bounds.{Few};
ghost use Rattle.plan.specs.Memory.{line_of, slot_of, edge_of, lines};
ghost use Rattle.plan.specs.Tests.{too_long_message};

use crate::{Edge, Plan, PlanLine, Slot, When};
use arrays::wide;
use limits::{BYTE, CONDITIONS, EDGES, HEAD, PROCESSES, SLOTS};

// There are not 1 to 8 slots, 1 to 64 processes, at most 6 conditions and at most 128 edges.
pub fn wrong_counts(p: &Plan) -> bool
    ensures { result ≡ wrong_counts (lines p.now) }
{
    p.slots < 1
        || SLOTS < p.slots
        || p.processes < 1
        || PROCESSES < p.processes
        || CONDITIONS < p.conditions
        || EDGES < p.edges
}

// x is outside lo to hi.
pub fn is_outside(x: u32, lo: u32, hi: u32) -> bool
    ensures { result ≡ outside lo hi x }
{
    x < lo || hi < x
}

// `byte` is outside 1 to 1,000, or `head` above 16.
pub fn wrong_plan_line(line: PlanLine) -> bool
    ensures { result ≡ wrong_plan (line_of line) }
{
    is_outside(line.byte, 1, BYTE) || HEAD < line.head
}

// An edge names no process, or its `from` is not below its `to`.
pub fn has_wrong_ends(p: &Plan, e: &Edge) -> bool
    ensures { result ≡ wrong_ends (lines p.now) (edge_of e.now) }
{
    p.processes <= wide(e.from) || p.processes <= wide(e.to) || e.to <= e.from
}

// The `when` of an edge names a condition that its `from` process does not decide.
pub fn has_wrong_when(p: &Plan, e: &Edge) -> bool
    requires { Few p.now }
    ensures { result ≡ wrong_when (lines p.now) (edge_of e.now) }
{
    match e.when {
        When::Always => false,
        When::True(k) | When::False(k) => match p.condition_lines().get(wide(k)) {
            Some(&i) => i != e.from,
            None => true,
        },
    }
}

// The bytes of a node's slot, 0 if it has none.
fn slot_bytes(slots: &[Slot], node: u32) -> u32
    ensures { result ≡ (slot_among (map slot_of slots.now) node).bytes }
{
    match slots.iter().find(|s| s.node == node) {
        Some(s) => s.bytes,
        None => 0,
    }
}

// The message of an edge is between nodes, and longer than the slot of its sender.
pub fn has_long_message(p: &Plan, e: &Edge) -> bool
    requires { Few p.now × (e.now.from < p.now.processes) × (e.now.to < p.now.processes) }
    ensures { result ≡ too_long_message (lines p.now) (edge_of e.now) }
{
    let processes = p.process_lines();
    let a = processes[wide(e.from)].node;
    let b = processes[wide(e.to)].node;
    a != b && slot_bytes(p.slot_lines(), a) < e.bytes
}
