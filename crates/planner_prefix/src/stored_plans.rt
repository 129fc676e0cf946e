// The plan of a combination stored in its parts of the arrays, beside those of the others, and its counts added to
// theirs: combination c's row r stands at place c * ROWS + r. specs/Stored.antt says the same of the arrays.
ghost use Rattle.std.specs.Prelude.{◌≡◌, ℕ, ◌+◌, ◌<◌, ◌≤◌, get_or};
ghost use Rattle.limits.specs.Limits.{NODES, COMBINATIONS};
ghost use Rattle.log_rows.specs.Rows.{rows_of};
ghost use Rattle.planner_nodes.specs.Nodes.{nodes_of};
ghost use Rattle.planner_prefix.specs.Stored.{added, RowsKept, NotesKept};

use crate::parts::copy_numbers;
use limits::{COMBINATIONNOTES, ENTRIES, NODES, NOTED, NOTES, ROWS};
use log_rows::{COMES_AT, PLACE_AT, Rows};
use planner_nodes::{NOTED_AT, Nodes, PASSED_AT, passed_of};

// Adds the counts of the first nodes to the totals.
pub fn add_counts(nodes: &Nodes, slots: usize, totals: &mut [u32; NODES])
    requires { (slots ≤ NODES) × ((n : ℕ) → n < slots →
        get_or totals.old n 0 + get_or (nodes_of nodes.now).passed n 0 < 4294967296) }
    ensures { totals.new ≡ added (nodes_of nodes.now).passed totals.old slots }
{
    for n in 0..slots {
        totals[n] += passed_of(nodes, n);
    }
}

// Stores the rows of combination c.
pub fn store_rows(rows: &Rows, c: usize, comes: &mut [u32; ENTRIES], place: &mut [u32; ENTRIES])
    requires { c < COMBINATIONS }
    ensures { RowsKept c (rows_of rows.now) comes.old place.old
        comes.new place.new }
{
    copy_numbers(rows, COMES_AT, ROWS, comes, c * ROWS);
    copy_numbers(rows, PLACE_AT, ROWS, place, c * ROWS);
}

// Stores what was noted for combination c, and its last counts.
pub fn store_notes(nodes: &Nodes, c: usize, notes: &mut [u32; NOTES])
    requires { c < COMBINATIONS }
    ensures { NotesKept c (nodes_of nodes.now) notes.old notes.new }
{
    copy_numbers(nodes, NOTED_AT, NOTED, notes, c * COMBINATIONNOTES);
    copy_numbers(nodes, PASSED_AT, NODES, notes, c * COMBINATIONNOTES + NOTED);
}
