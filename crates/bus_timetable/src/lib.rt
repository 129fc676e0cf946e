// The bus of a plan in which refusals 2 to 9 find nothing: by node, where its slot lies in a round, and the first
// beginning of it from a tick on.
// Document 01: "a round is the sum of its slots; round 0 begins at tick 0." Document 02, point 1: "a slot lasts
// (bytes + head) × byte ticks."
#![tactic(auto)]

mod reciprocal;
mod search;

ghost use Rattle.std.specs.Prelude.{◌≡◌, ◌≤◌};
ghost use Rattle.limits.specs.Limits.{BYTES};
ghost use Rattle.model.specs.Bus.{slot_of, offset};
ghost use Rattle.model.specs.Refusals.{nothing, plan_refusal};
ghost use Rattle.plan.specs.Memory.{lines};
ghost use Rattle.bus_timetable.specs.Bus.{ticks_of, Short, timetable};

use crate::reciprocal::find_reciprocal;
use limits::{NODES, NONODE};
use plan::{Plan, PlanLine};
pub use search::{first_beginning, round_beginning};

// The ticks of a round, their reciprocal and, by node, the ticks from a round's beginning to the node's slot, the
// slot's ticks and its bytes.
#[derive(Clone, Copy)]
pub struct Timetable {
    pub round: u32,
    pub reciprocal: u32,
    pub offset: [u32; NODES],
    pub ticks: [u32; NODES],
    pub bytes: [u32; NODES],
}

// where a node's slot lies, and its bytes
#[derive(Clone, Copy)]
struct Place {
    offset: u32,
    bytes: u32,
}

// The ticks that a slot of so many bytes of data lasts.
fn slot_ticks(line: PlanLine, bytes: u32) -> u32
    requires { Short line × (bytes ≤ BYTES) }
    ensures { result ≡ ticks_of line bytes }
{
    (bytes + line.head) * line.byte
}

// The ticks before a node's slot, and its bytes: those of all slots, and 0, where it has none.
fn find(p: &Plan, node: u32) -> Place
    requires { plan_refusal (lines p.now) ≡ nothing }
    ensures before { result.offset ≡ offset (lines p.now) node }
    ensures room { result.bytes ≡ (slot_of (lines p.now) node).bytes }
    ensures room_most { result.bytes ≤ BYTES }
{
    let mut sum: u32 = 0;
    for s in p.slot_lines() {
        if s.node == node {
            return Place {
                offset: sum,
                bytes: s.bytes,
            };
        }
        sum += slot_ticks(p.line, s.bytes);
    }
    Place {
        offset: sum,
        bytes: 0,
    }
}

// The timetable of a plan. No slot has node 8, so that the slots before its are all.
pub fn of_plan(p: Plan) -> Timetable
    requires { plan_refusal (lines p) ≡ nothing }
    ensures { result ≡ timetable (lines p) }
{
    let mut offset = [0u32; NODES];
    let mut ticks = [0u32; NODES];
    let mut bytes = [0u32; NODES];
    for n in 0..p.slots {
        let place = find(&p, n as u32);
        offset[n] = place.offset;
        ticks[n] = slot_ticks(p.line, place.bytes);
        bytes[n] = place.bytes;
    }
    let round = find(&p, NONODE).offset;
    Timetable {
        round,
        reciprocal: find_reciprocal(round),
        offset,
        ticks,
        bytes,
    }
}
