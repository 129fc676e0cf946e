// The rows that are due in one combination.
ghost use Rattle.std.specs.Prelude.{◌≡◌, ◌+◌, ◌<◌, ◌≤◌, length, replicate};
ghost use Rattle.limits.specs.Limits.{EDGES, ROWS};
ghost use Rattle.plan_index.specs.Index.{laid, Bounded};
ghost use Rattle.log_rows.specs.Rows.{rows_of, with_comes};
ghost use Rattle.checker_rows.specs.RowOrder.{RowOrder};
ghost use Rattle.checker_rows.specs.Due.{edge_due_in, row_due_in, due_in, due_of, with_active};

use arrays::zeros;
use limits::ROWS;
use log_queries::may_run;
use log_rows::{COMES_AT, Rows, run_of, unmet_of};
use plan_index::{Index, conditionrow_of, decider_of, from_of, processes_of, remote_of, rows_of};
use plan_layout::find_unmet;

// Whether edge e is due: it is between nodes, its `when` is met, and its sender is active. 1, or 0.
fn edge_due(index: &Index, rows: &Rows, e: usize) -> u32
    requires { (e < EDGES) × Bounded (laid index.now) }
    ensures { result ≡ edge_due_in (laid index.now) (rows_of rows.now) e }
{
    if remote_of(index, e) == 0 {
        return 0;
    }
    if unmet_of(rows, e) == 0 {
        return run_of(rows, from_of(index, e));
    }
    0
}

// Whether row r is due: 1, or 0.
fn row_due(index: &Index, rows: &Rows, r: usize) -> u32
    requires { (r < (laid index.now).rows) × Bounded (laid index.now) × RowOrder (laid index.now) }
    ensures { result ≡ row_due_in (laid index.now) (rows_of rows.now) r }
{
    let processes = processes_of(index);
    if r < processes {
        return run_of(rows, r);
    }
    let conditionrow = conditionrow_of(index);
    if r < conditionrow {
        return edge_due(index, rows, r - processes);
    }
    run_of(rows, decider_of(index, r - conditionrow))
}

// Which rows are due, given which processes are active.
fn rows_due(index: &Index, rows: &Rows) -> [u32; ROWS]
    requires { Bounded (laid index.now) × RowOrder (laid index.now) }
    ensures { result ≡ due_in (laid index.now) (rows_of rows.now) }
{
    let mut due = zeros::<ROWS>();
    let end = rows_of(index);
    for r in 0..end {
        due[r] = row_due(index, rows, r);
    }
    due
}

// Says of every row that it is over at this clock, 0 for a row that is not placed.
fn put_all_comes(rows: &mut [u32], clock: u32)
    requires { 192 + ROWS ≤ length rows.old }
    ensures { rows_of rows.new ≡ with_comes (replicate ROWS clock) (rows_of rows.old) }
{
    for r in 0..ROWS {
        rows[COMES_AT + r] = clock;
    }
}

// The rows that are due in the combination with number c: 1 where a row is due, 0 where it is not. Leaves in `rows`
// which processes are active in the combination, and which `when`s it does not meet; no row is placed there then.
pub fn due_rows(index: &Index, c: u32, rows: &mut Rows) -> [u32; ROWS]
    requires { Bounded (laid index.now) × RowOrder (laid index.now)
        × ((rows_of rows.old).unmet ≡ replicate EDGES 0) }
    ensures { (result ≡ due_of (laid index.now) c) × (rows_of rows.new
        ≡ with_active (laid index.now) c (rows_of rows.old)) }
{
    put_all_comes(rows, 1);
    find_unmet(index, c, rows);
    may_run(index, 1, rows);
    put_all_comes(rows, 0);
    rows_due(index, rows)
}
