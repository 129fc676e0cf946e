// A log of one combination in memory, by row, in one array of numbers: each field has its place there, and functions
// that read and store it. specs/Rows.antt has the same fields as a record.
// Document 01: "Rows: processes, then edges, then conditions."
#![tactic(auto)]

ghost use Rattle.std.specs.Prelude.{◌≡◌, ◌<◌, get_or};
ghost use Rattle.limits.specs.Limits.{EDGES, PROCESSES, ROWS};
ghost use Rattle.log_rows.specs.Rows.{rows_of, no_rows, put_run, put_unmet, put_comes, put_place};

use limits::{EDGES, PROCESSES, ROWS};

// where each field stands in the array
pub const RUN_AT: usize = 0;

pub const UNMET_AT: usize = RUN_AT + PROCESSES;

pub const COMES_AT: usize = UNMET_AT + EDGES;

pub const PLACE_AT: usize = COMES_AT + ROWS;

// How many numbers there are.
pub const WORDS: usize = PLACE_AT + ROWS;

// A log of one combination in memory, and what its rows are read with.
// (One array, not a struct of arrays by row: the contracts of the crates above speak of its fields by `rows_of`.)
pub type Rows = [u32; WORDS];

// (A reader and a store for each field, since each contract names the field in the record.)

// 1 where process i may run, 0 where it is known inactive.
pub fn run_of(rows: &Rows, i: usize) -> u32
    requires { i < PROCESSES }
    ensures { result ≡ get_or (rows_of rows.now).run i 0 }
{
    rows[RUN_AT + i]
}

// 1 where the combination does not meet the `when` of edge e, else 0.
pub fn unmet_of(rows: &Rows, e: usize) -> u32
    requires { e < EDGES }
    ensures { result ≡ get_or (rows_of rows.now).unmet e 0 }
{
    rows[UNMET_AT + e]
}

// The clock (tick plus 1) at which a row is over, 0 where it is not placed.
pub fn comes_of(rows: &Rows, row: usize) -> u32
    requires { row < ROWS }
    ensures { result ≡ get_or (rows_of rows.now).comes row 0 }
{
    rows[COMES_AT + row]
}

// The place of a row in its frame.
pub fn place_of(rows: &Rows, row: usize) -> u32
    requires { row < ROWS }
    ensures { result ≡ get_or (rows_of rows.now).place row 0 }
{
    rows[PLACE_AT + row]
}

// Stores whether process i may run.
pub fn put_run(rows: &mut Rows, i: usize, x: u32)
    requires { i < PROCESSES }
    ensures { rows_of rows.new ≡ put_run i x (rows_of rows.old) }
{
    rows[RUN_AT + i] = x;
}

// Stores whether the combination leaves the `when` of edge e unmet.
pub fn put_unmet(rows: &mut Rows, e: usize, x: u32)
    requires { e < EDGES }
    ensures { rows_of rows.new ≡ put_unmet e x (rows_of rows.old) }
{
    rows[UNMET_AT + e] = x;
}

// Stores the clock at which a row is over.
pub fn put_comes(rows: &mut Rows, row: usize, x: u32)
    requires { row < ROWS }
    ensures { rows_of rows.new ≡ put_comes row x (rows_of rows.old) }
{
    rows[COMES_AT + row] = x;
}

// Stores the place of a row in its frame.
pub fn put_place(rows: &mut Rows, row: usize, x: u32)
    requires { row < ROWS }
    ensures { rows_of rows.new ≡ put_place row x (rows_of rows.old) }
{
    rows[PLACE_AT + row] = x;
}

// No row is placed, no process is said to run, no `when` to be unmet.
pub fn empty_rows() -> Rows
    ensures { rows_of result ≡ no_rows }
{
    [0u32; WORDS]
}
