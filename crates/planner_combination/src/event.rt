// One event of the planning of a combination: a process ends, a slot that carries something ends, or a slot begins
// whose node has a ready item. specs/Events.antt says what an event does and when the next one is, specs/Kept.antt what
// is kept from event to event so that nothing is worked out twice.
ghost use Rattle.std.specs.Prelude.{◌≡◌, ℕ, ◌+◌, ◌*◌, ◌<◌, ◌≤◌, eqb, length, get_or, if◌then◌else◌};
ghost use Rattle.std.proofs.lemmas.List.Edits.{sets};
ghost use Rattle.limits.specs.Limits.{NODES, CONDITIONS, ROWS, LASTCLOCK};
ghost use Rattle.model.specs.Listing.{bit};
ghost use Rattle.plan_index.specs.Index.{laid, Bounded};
ghost use Rattle.log_rows.specs.Rows.{rows_of};
ghost use Rattle.planner_nodes.specs.Nodes.{nodes_of, with_noted};
ghost use Rattle.planner_dispatch.specs.Dispatching.{NothingNew};
ghost use Rattle.planner_sends.specs.Clocks.{new_at};
ghost use Rattle.planner_combination.specs.Events.{notes_below, Fits};
ghost use Rattle.planner_combination.specs.Planning.{noted_in, Begun, AtEvent, EventDone};

use limits::{NEVER, NODES};
use log_queries::update_may_run;
use log_rows::{Rows, comes_of};
use plan_index::{Index, conditionrow_of, conditions_of, slots_of};
use planner_dispatch::starts;
use planner_nodes::{NOTED_AT, Nodes, PASSED_AT};
use planner_packing::{Ends, send_slot};
use planner_sends::{
    changed_nodes, changes, current_round, ends_after, next_event, sending_node, sooner,
    update_next_sends,
};

// Notes the counts of the nodes for condition k.
fn note_counts(k: usize, nodes: &mut Nodes)
    requires { (k < CONDITIONS) × (length (nodes_of nodes.old).passed ≡ NODES) }
    ensures { nodes_of nodes.new ≡ with_noted (sets (nodes_of nodes.old).noted (k * NODES)
        (nodes_of nodes.old).passed) (nodes_of nodes.old) }
{
    nodes.copy_within(PASSED_AT..PASSED_AT + NODES, NOTED_AT + k * NODES);
}

// Notes the counts for condition k, whose row is `row`, if its value becomes known at clock u.
fn note_one(rows: &Rows, u: u32, row: usize, k: usize, nodes: &mut Nodes)
    requires { (row < ROWS) × (k < CONDITIONS) × (length (nodes_of nodes.old).passed ≡ NODES) }
    ensures { nodes_of nodes.new ≡ with_noted
        (if eqb (get_or (rows_of rows.now).comes row 0) u
        then sets (nodes_of nodes.old).noted (k * NODES) (nodes_of nodes.old).passed
        else (nodes_of nodes.old).noted) (nodes_of nodes.old) }
{
    if comes_of(rows, row) == u {
        note_counts(k, nodes);
    }
}

// Notes the counts for each condition whose value becomes known at clock u.
fn note_all(index: &Index, rows: &Rows, u: u32, nodes: &mut Nodes)
    requires { Bounded (laid index.now) × (length (nodes_of nodes.old).passed ≡ NODES) }
    ensures { nodes_of nodes.new ≡ with_noted (notes_below (rows_of rows.now).comes u
        (laid index.now).conditionrow (nodes_of nodes.old).passed
        (laid index.now).conditions (nodes_of nodes.old).noted)
        (nodes_of nodes.old) }
{
    let first = conditionrow_of(index);
    let conditions = conditions_of(index);
    for k in 0..conditions {
        note_one(rows, u, first + k, k, nodes);
    }
}

// Notes the counts for the conditions whose values become known at this clock. Where no broadcast ends, there are none.
fn note(index: &Index, rows: &Rows, broadcastend: u32, u: u32, nodes: &mut Nodes)
    requires { Bounded (laid index.now) × (length (nodes_of nodes.old).passed ≡ NODES) }
    ensures { nodes_of nodes.new ≡ with_noted (noted_in (laid index.now)
        (rows_of rows.now) broadcastend u (nodes_of nodes.old))
        (nodes_of nodes.old) }
{
    if broadcastend == u {
        note_all(index, rows, u, nodes);
    }
}

// The mask of the nodes for which something is new at clock u, where a row is over at it. Where none is, it is empty.
fn new_nodes(nodes: &Nodes, come: u32, u: u32) -> u32
    ensures { (result < 256) × (come ≡ u → (n : ℕ) → n < NODES → bit result n
        ≡ new_at (nodes_of nodes.now).lastarrival (nodes_of nodes.now).busy u n) }
{
    if come == u {
        changed_nodes(nodes, u)
    } else {
        0
    }
}

// Each free node starts, where a row is over at this clock. Where none is, no node can start. A node that is not in the
// mask `new` has nothing to start. The answer is the end of the process that ends first of those that start, or
// `NEVER`.
fn begin(index: &Index, come: u32, u: u32, new: u32, rows: &mut Rows, nodes: &mut Nodes) -> u32
    requires { Bounded (laid index.now) × (u ≤ LASTCLOCK) × (new < 256)
        × NothingNew (laid index.now) (rows_of rows.old) (nodes_of nodes.old).busy u new }
    ensures { Begun (laid index.now) come u (rows_of rows.old)
        (nodes_of nodes.old) (rows_of rows.new) (nodes_of nodes.new) result }
{
    if come == u {
        starts(index, u, new, rows, nodes)
    } else {
        NEVER
    }
}

// Where planning stands: the clock of the event, the clock at which a row is next over, the end of the last slot used,
// and of the last one with a broadcast, the clock at which a process next ends, and the beginning of the round that the
// event before lies in, 0 where there was none.
#[derive(Clone, Copy)]
pub struct Clocks {
    pub u: u32,
    pub come: u32,
    pub slotend: u32,
    pub broadcastend: u32,
    pub ends: u32,
    pub begun: u32,
}

// One event, at the clocks of `at`: values that arrive are heard, nodes start, and the slot that begins takes its
// items. The answer has the clocks of the next event, and the beginning of the round that this one lies in.
pub(crate) fn event(index: &Index, at: Clocks, rows: &mut Rows, nodes: &mut Nodes) -> Clocks
    requires { Fits (laid index.now) × AtEvent (laid index.now) at (rows_of rows.old)
        (nodes_of nodes.old) }
    ensures { EventDone (laid index.now) at (rows_of rows.old)
        (nodes_of nodes.old) result (rows_of rows.new) (nodes_of nodes.new) }
{
    let u = at.u;
    let come = at.come;
    let ends = at.ends;
    let slotend = at.slotend;
    let broadcastend = at.broadcastend;
    note(index, rows, broadcastend, u, nodes);
    update_may_run(index, broadcastend, u, rows);
    let look = changes(broadcastend, ends, u);
    let new = new_nodes(nodes, come, u);
    let begun = current_round(index, at.begun, u);
    update_next_sends(index, rows, look, broadcastend, u, new, begun, nodes);
    let first = begin(index, come, u, new, rows, nodes);
    let slots = slots_of(index);
    let node = sending_node(nodes, slots, u);
    let s = send_slot(
        index,
        node,
        u,
        Ends {
            slotend,
            broadcastend,
        },
        rows,
        nodes,
    );
    let ending = ends_after(nodes, slots, ends, first, u);
    let over = sooner(ending, s.slotend, u);
    let next = next_event(nodes, over);
    Clocks {
        u: next,
        come: over,
        slotend: s.slotend,
        broadcastend: s.broadcastend,
        ends: ending,
        begun,
    }
}
