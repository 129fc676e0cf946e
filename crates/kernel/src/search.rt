// The test of an entry by the node of each row, and the search for the first entry that passes a test.
ghost use Rattle.std.specs.Prelude.{Ok, Bool, ℕ, List, ◌≡◌, ◌/◌, ◌≤◌, ◌<◌, length, drop};
ghost use Rattle.limits.specs.Limits.{ROWS};
ghost use Rattle.model.specs.Table.{Entry, entries_of};
ghost use Rattle.kernel_rows.specs.Entries.{entry_at};
ghost use Rattle.kernel.specs.Finding.{found_of, fits_by, find_by, TestsOf};

use crate::column::column_met;
use arrays::wide;
use limits::ROWS;

// Whether entry i of a table is of a node at a tick, and its column is met by what is heard. `nodes` has the node of
// each row of the plan.
pub fn entry_fits<'a>(
    table: &'a [u32],
    i: usize,
    nodes: &'a [u32; ROWS],
    rows: usize,
    node: u32,
    tick: u32,
    heard: u32,
    told: u32,
) -> bool
    requires fact_1 { i < length table.now / 5 }
    requires fact_2 { rows ≤ ROWS }
    ensures { result ≡ fits_by nodes.now rows node tick heard told (entry_at table.now i) }
{
    let at = i * 5;
    if table[at + 3] != tick {
        return false;
    }
    let row = wide(table[at]);
    if rows <= row {
        return false;
    }
    if nodes[row] != node {
        return false;
    }
    column_met(table[at + 1], table[at + 2], heard, told)
}

// The number of the first of n entries, from number `first` on, that fits, as `fits` tells of each by its number.
pub fn first_entry<F: Fn(usize) -> bool>(n: usize, first: usize, fits: &F) -> Option<usize>
    requires { (i : ℕ) → i < n → F.pre fits.now i }
    ensures { (test : Entry → Bool) (words : List ℕ) → TestsOf (F.post fits.now) n test words
        → Ok result ≡ found_of (find_by test (drop first (entries_of words)) first) }
{
    // A loop: the new form is no plainer, because the check does not find what `find` asks of a lent closure.
    for i in first..n {
        if fits(i) {
            return Some(i);
        }
    }
    None
}
