// The lines of entries: starts, sends and tells. Each answer has the position behind the line, and is `None` where no
// such line stands.
ghost use Rattle.std.specs.Prelude.{◌+◌, ◌≤◌, length, drop};
ghost use Rattle.limits.specs.Limits.{CONDITIONS};
ghost use Rattle.listing_grammar.specs.Parse.{numbered_at, start_at, item_at, entry_at};
ghost use Rattle.text_scanner.specs.Place.{Scanned, number};
ghost use Rattle.listing_scanner.specs.Lines.{entry, Few};

use crate::columns::column;
use text_scanner::{closed, field, number_to, word};

// How many slots, processes, edges and conditions the plan of a listing has.
#[derive(Clone, Copy)]
pub struct Counts {
    pub slots: u32,
    pub processes: u32,
    pub edges: u32,
    pub conditions: u32,
}

// An entry as a line says it: row, known bits, their values, tick, place.
#[derive(Clone, Copy)]
pub struct Entry {
    pub row: u32,
    pub known: u32,
    pub values: u32,
    pub tick: u32,
    pub place: u32,
}

// A word, a number and a blank.
pub(crate) fn numbered(text: &[u8], at: usize, w: &[u8]) -> Option<(u32, usize)>
    requires { at ≤ length text.now }
    ensures { Scanned text.now (number result) (numbered_at w.now
        (drop at text.now)) }
{
    let i = word(text, at, w)?;
    number_to(text, i, b' ')
}

// The line of a process at `at`.
fn start(text: &[u8], at: usize, processes: u32, conditions: u32) -> Option<(Entry, usize)>
    requires { (at ≤ length text.now) × (conditions ≤ CONDITIONS) }
    ensures { Scanned text.now (entry result) (start_at processes conditions
        (drop at text.now)) }
{
    let (row, i) = numbered(text, at, b"(start ")?;
    if processes <= row {
        return None;
    }
    let column = column(text, i, conditions)?;
    let (tick, end) = closed(text, column.at, b" (at ", b")\n")?;
    let entry = Entry {
        row,
        known: column.known,
        values: column.values,
        tick,
        place: 0,
    };
    Some((entry, end))
}

// The line of an edge or of a condition at `at`: it begins with the word `w`, and row `base` is that of number 0.
fn item(
    text: &[u8],
    at: usize,
    w: &[u8],
    base: u32,
    count: u32,
    conditions: u32,
) -> Option<(Entry, usize)>
    requires { (at ≤ length text.now) × (base + count ≤ 4294967295) × (conditions ≤ CONDITIONS) }
    ensures { Scanned text.now (entry result) (item_at w.now base count conditions
        (drop at text.now)) }
{
    let (n, i) = numbered(text, at, w)?;
    if count <= n {
        return None;
    }
    let column = column(text, i, conditions)?;
    let (tick, k) = field(text, column.at, b" (at ")?;
    let (place, end) = closed(text, k, b" (place ", b")\n")?;
    let entry = Entry {
        row: base + n,
        known: column.known,
        values: column.values,
        tick,
        place,
    };
    Some((entry, end))
}

// The line of an entry at `at`: a start, a send or a tell, with a number that the plan has.
pub fn entry_line(text: &[u8], at: usize, counts: Counts) -> Option<(Entry, usize)>
    requires { (at ≤ length text.now) × Few counts }
    ensures { Scanned text.now (entry result) (entry_at counts.processes counts.edges
        counts.conditions (drop at text.now)) }
{
    let processes = counts.processes;
    let edges = counts.edges;
    let conditions = counts.conditions;
    if let Some(start) = start(text, at, processes, conditions) {
        return Some(start);
    }
    if let Some(send) = item(text, at, b"(send ", processes, edges, conditions) {
        return Some(send);
    }
    item(
        text,
        at,
        b"(tell ",
        processes + edges,
        conditions,
        conditions,
    )
}
