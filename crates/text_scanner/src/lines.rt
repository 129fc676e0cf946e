// The lines of the plan text at a position. Each answer has the position behind the line, and is `None` where no such
// line stands.
ghost use Rattle.std.specs.Prelude.{◌≤◌, length, drop};
ghost use Rattle.text_grammar.specs.Parse.{plan_at, slot_at, process_at, condition_at, edge_at};
ghost use Rattle.text_scanner.specs.Place.{Scanned, number};
ghost use Rattle.text_scanner.specs.Lines.{plan_line, slot, process, edge};

use crate::line_ends::{pick, waits, when};
use crate::words::{closed, field};
use plan::{Edge, PlanLine, Process, Slot};

// The plan line at `at`.
pub fn plan_line(text: &[u8], at: usize) -> Option<(PlanLine, usize)>
    requires { at ≤ length text.now }
    ensures { Scanned text.now (plan_line result) (plan_at (drop at text.now)) }
{
    let (byte, i) = field(text, at, b"(plan (byte ")?;
    let (head, j) = field(text, i, b" (head ")?;
    let (pick, k) = pick(text, j)?;
    Some((PlanLine { byte, head, pick }, k))
}

// The slot line at `at`.
pub fn slot(text: &[u8], at: usize) -> Option<(Slot, usize)>
    requires { at ≤ length text.now }
    ensures { Scanned text.now (slot result) (slot_at (drop at text.now)) }
{
    let (node, i) = field(text, at, b"(slot (node ")?;
    let (bytes, j) = closed(text, i, b" (bytes ", b")\n")?;
    Some((Slot { node, bytes }, j))
}

// The process line at `at`.
pub fn process(text: &[u8], at: usize) -> Option<(Process, usize)>
    requires { at ≤ length text.now }
    ensures { Scanned text.now (process result) (process_at (drop at text.now)) }
{
    let (node, i) = field(text, at, b"(process (node ")?;
    let (ticks, j) = field(text, i, b" (ticks ")?;
    let (waits, k) = waits(text, j)?;
    Some((Process { node, ticks, waits }, k))
}

// The condition line at `at`.
pub fn condition(text: &[u8], at: usize) -> Option<(u32, usize)>
    requires { at ≤ length text.now }
    ensures { Scanned text.now (number result) (condition_at (drop at text.now)) }
{
    closed(text, at, b"(condition (process ", b")\n")
}

// The edge line at `at`.
pub fn edge(text: &[u8], at: usize) -> Option<(Edge, usize)>
    requires { at ≤ length text.now }
    ensures { Scanned text.now (edge result) (edge_at (drop at text.now)) }
{
    let (from, i) = field(text, at, b"(edge (from ")?;
    let (to, j) = field(text, i, b" (to ")?;
    let (bytes, k) = field(text, j, b" (bytes ")?;
    let (when, l) = when(text, k)?;
    Some((
        Edge {
            from,
            to,
            bytes,
            when,
        },
        l,
    ))
}
