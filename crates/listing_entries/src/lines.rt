// The line of an entry of a table stored in lent bytes that have room for it: how the lines of a row begin and end, and
// a line that begins and ends as given.
ghost use Rattle.std.specs.Prelude.{◌≡◌, ◌+◌, ◌≤◌, length};
ghost use Rattle.text_lines.specs.Label.{labelled};
ghost use Rattle.text_lines.specs.Put.{Put};
ghost use Rattle.listing_bytes.specs.Fits.{Fits};
ghost use Rattle.listing_entries.specs.Sets.{sets_of};
ghost use Rattle.listing_entries.specs.Lines.{begin_by, begin_of, end_of, line_at};

use crate::column::put_values;
use listing_bytes::{put_digits, put_labelled, put_long, put_word};
use listing_count::Counts;

// Stores how a line begins, by its first word.
fn put_begin(out: &mut [u8], label: &[u8], number: u32) -> usize
    requires { Fits out.old 0 (begin_by label.now number) }
    ensures { Put out.old out.new 0 result (begin_by label.now number) }
{
    let end = put_labelled(out, 0, label, number);
    put_word(out, end, b" (when")
}

// Stores how the lines of a row begin at the front of some bytes: nothing if the plan lacks the row.
pub(crate) fn put_first(out: &mut [u8], counts: Counts, row: u32) -> usize
    requires { 32 ≤ length out.old }
    ensures { Put out.old out.new 0 result (begin_of counts.processes counts.edges counts.conditions row) }
{
    let number = row as usize;
    if number < counts.processes {
        return put_begin(out, b"(start ", row);
    }
    let edge = number - counts.processes;
    if edge < counts.edges {
        return put_begin(out, b"(send ", edge as u32);
    }
    let condition = edge - counts.edges;
    if condition < counts.conditions {
        return put_begin(out, b"(tell ", condition as u32);
    }
    0
}

// Stores a tick at the front of some bytes: most have several digits.
fn put_tick(out: &mut [u8], tick: u32) -> usize
    requires { Fits out.old 0 (labelled ") (at " tick) }
    ensures { Put out.old out.new 0 result (labelled ") (at " tick) }
{
    let number = put_word(out, 0, b") (at ");
    put_digits(out, number, tick)
}

// Stores how the lines of a row end at the front of some bytes.
pub(crate) fn put_end(out: &mut [u8], processes: usize, row: u32, tick: u32, place: u32) -> usize
    requires { 48 ≤ length out.old }
    ensures { Put out.old out.new 0 result (end_of processes row tick place) }
{
    let end = put_tick(out, tick);
    if (row as usize) < processes {
        return put_word(out, end, b"))\n");
    }
    let last = put_labelled(out, end, b") (place ", place);
    put_word(out, last, b"))\n")
}

// Stores the line of the entry from word i on, which begins and ends as given.
pub(crate) fn put_line(
    out: &mut [u8],
    at: usize,
    begin: &[u8],
    last: &[u8],
    sets: u32,
    conditions: usize,
    table: &[u32],
    i: usize,
) -> usize
    requires { (8 ≤ length begin.now) × (8 ≤ length last.now) × (sets ≡ sets_of conditions)
        × (i + 5 ≤ length table.now) × Fits out.old at (line_at begin.now last.now conditions table.now i) }
    ensures { Put out.old out.new at result
        (line_at begin.now last.now conditions table.now i) }
{
    let column = put_long(out, at, begin);
    let end = put_values(out, column, sets, conditions, table[i + 1], table[i + 2]);
    put_long(out, end, last)
}
