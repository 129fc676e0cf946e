// The lines of a table stored from a place on in lent bytes that have room for them. The entries of one row, one tick
// and one place that follow each other are a run: how their lines end is worked out once, and how they begin once for
// the runs of one row.
ghost use Rattle.std.specs.Prelude.{◌≡◌, ◌+◌, ◌≤◌, length, drop, get_or};
ghost use Rattle.text_lines.specs.Put.{Put};
ghost use Rattle.listing_bytes.specs.Fits.{Fits};
ghost use Rattle.listing_count.specs.Parts.{entries_text};
ghost use Rattle.listing_entries.specs.Sets.{sets_of};
ghost use Rattle.listing_entries.specs.Runs.{stands, of_row, run_of, run_entries, row_entries, same_entries};
ghost use Rattle.listing_entries.specs.Runs.{Begun, Lined, Ran};

use crate::column::known_sets;
use crate::lines::{put_end, put_first, put_line};
use listing_count::Counts;

// Where a run, or the runs of a row, end: in the lent bytes and in the words of the table.
#[derive(Clone, Copy)]
struct Run {
    end: usize,
    next: usize,
}

// Whether an entry stands in a table from word i on that has the row, the tick and the place of the one from word
// `first` on.
#[tactic(auto, unfolding(crate::specs::Runs::stands, crate::specs::Runs::of_run))]
fn alike(table: &[u32], first: usize, i: usize) -> bool
    requires { (first + 5 ≤ length table.now) × (i ≤ length table.now) }
    ensures { result ≡ stands (run_of table.now first) table.now i }
{
    5 <= table.len() - i
        && table[i] == table[first]
        && table[i + 3] == table[first + 3]
        && table[i + 4] == table[first + 4]
}

// Stores the lines of the run that begins at word `first`, each of which begins and ends as given. How many processes
// and edges the plan has tells which lines these are.
fn put_lines(
    out: &mut [u8],
    at: usize,
    counts: Counts,
    sets: u32,
    begin: &[u8],
    last: &[u8],
    table: &[u32],
    first: usize,
) -> Run
    requires { (first + 5 ≤ length table.now) × Lined counts.processes counts.edges counts.conditions
        (get_or table.now first 0) (get_or table.now (first + 3) 0) (get_or table.now (first + 4) 0) begin.now last.now
        × (sets ≡ sets_of counts.conditions)
        × Fits out.old at (entries_text counts.processes counts.edges counts.conditions (drop first table.now)) }
    ensures { Ran counts.processes counts.edges counts.conditions table.now out.old out.new at first
        result.end result.next (run_entries table.now first) }
{
    let mut end = at;
    let mut i = first;
    loop {
        end = put_line(out, end, begin, last, sets, counts.conditions, table, i);
        i += 5;
        if !alike(table, first, i) {
            return Run { end, next: i };
        }
    }
}

// Stores the lines of the run that begins at word `first`, each of which begins as given.
fn put_run(
    out: &mut [u8],
    at: usize,
    counts: Counts,
    sets: u32,
    begin: &[u8],
    table: &[u32],
    first: usize,
) -> Run
    requires { (first + 5 ≤ length table.now) × Begun counts.processes counts.edges counts.conditions
        (get_or table.now first 0) begin.now × (sets ≡ sets_of counts.conditions)
        × Fits out.old at (entries_text counts.processes counts.edges counts.conditions (drop first table.now)) }
    ensures { Ran counts.processes counts.edges counts.conditions table.now out.old out.new at first
        result.end result.next (run_entries table.now first) }
{
    let row = table[first];
    let tick = table[first + 3];
    let place = table[first + 4];
    let mut last = [0u8; 48];
    let long = put_end(&mut last, counts.processes, row, tick, place);
    put_lines(out, at, counts, sets, begin, &last[..long], table, first)
}

// Whether an entry stands in a table from word i on that has the row of the one from word `first` on.
#[tactic(auto, unfolding(crate::specs::Runs::stands, crate::specs::Runs::of_row))]
fn same_row(table: &[u32], first: usize, i: usize) -> bool
    requires { (first + 5 ≤ length table.now) × (i ≤ length table.now) }
    ensures { result ≡ stands (of_row (get_or table.now first 0)) table.now i }
{
    5 <= table.len() - i && table[i] == table[first]
}

// Stores the lines of the runs of one row, of which the first begins at word `first`, each of which begins as given.
fn put_runs(
    out: &mut [u8],
    at: usize,
    counts: Counts,
    sets: u32,
    begin: &[u8],
    table: &[u32],
    first: usize,
) -> Run
    requires { (first + 5 ≤ length table.now) × Begun counts.processes counts.edges counts.conditions
        (get_or table.now first 0) begin.now × (sets ≡ sets_of counts.conditions)
        × Fits out.old at (entries_text counts.processes counts.edges counts.conditions (drop first table.now)) }
    ensures { Ran counts.processes counts.edges counts.conditions table.now out.old out.new at first
        result.end result.next (row_entries table.now first) }
{
    let mut end = at;
    let mut i = first;
    loop {
        let run = put_run(out, end, counts, sets, begin, table, i);
        end = run.end;
        i = run.next;
        if !same_row(table, first, i) {
            return Run { end, next: i };
        }
    }
}

// Stores the lines of the entries of one row that follow each other from word `first` on.
fn put_row(out: &mut [u8], at: usize, counts: Counts, sets: u32, table: &[u32], first: usize) -> Run
    requires { (first + 5 ≤ length table.now) × (sets ≡ sets_of counts.conditions)
        × Fits out.old at (entries_text counts.processes counts.edges counts.conditions (drop first table.now)) }
    ensures { Ran counts.processes counts.edges counts.conditions table.now out.old out.new at first
        result.end result.next (same_entries counts.processes counts.edges counts.conditions table.now first) }
{
    let mut begin = [0u8; 32];
    let long = put_first(&mut begin, counts, table[first]);
    if long == 0 {
        return Run {
            end: at,
            next: first + 5,
        };
    }
    put_runs(out, at, counts, sets, &begin[..long], table, first)
}

// Stores the lines of a table.
pub fn put_entries(out: &mut [u8], at: usize, counts: Counts, table: &[u32]) -> usize
    requires { Fits out.old at (entries_text counts.processes counts.edges counts.conditions table.now) }
    ensures { Put out.old out.new at result (entries_text counts.processes counts.edges counts.conditions table.now) }
{
    let n = table.len();
    let sets = known_sets(counts.conditions);
    let mut end = at;
    let mut i: usize = 0;
    // No chunks: a row tells where the next one begins.
    while 4 < n - i {
        let row = put_row(out, end, counts, sets, table, i);
        end = row.end;
        i = row.next;
    }
    end
}
