// Refusal 18 of one combination, read off what its met entries leave by row. A row's `comes` is 0 where no entry of the
// row is met, else the met entry's tick plus what the row lasts, plus 1, so that the row starts at the clock
// comes - span, which is its tick plus 1.
ghost use Rattle.std.specs.Prelude.{◌≡◌, ◌<◌, get_or};
ghost use Rattle.limits.specs.Limits.{PROCESSES};
ghost use Rattle.plan_index.specs.Index.{laid, Bounded};
ghost use Rattle.log_rows.specs.Rows.{rows_of};
ghost use Rattle.checker_rows.specs.MetArrays.{Readable};
ghost use Rattle.checker_rules.specs.Rules.{run_at_once, row_overlaps, some_overlap};

use log_rows::{Rows, comes_of};
use plan_index::{Index, node_of, processes_of, span_of};

// Processes j and i, of which i is met, overlap on a node.
fn together(index: &Index, rows: &Rows, i: usize, j: usize) -> bool
    requires fact_1 { (i < PROCESSES) × (j < PROCESSES) × (get_or (rows_of rows.now).comes i 0 ≡ 0 → ⊥) }
    requires fact_2 { Bounded (laid index.now) }
    requires fact_3 { Readable (rows_of rows.now).comes (laid index.now).span }
    ensures { result ≡ run_at_once (laid index.now) (rows_of rows.now) i j }
{
    let x = comes_of(rows, j);
    if x == 0 {
        return false;
    }
    if node_of(index, j) != node_of(index, i) {
        return false;
    }
    let y = comes_of(rows, i);
    if x <= y - span_of(index, i) {
        return false;
    }
    if y <= x - span_of(index, j) {
        return false;
    }
    true
}

// Process i is met and overlaps a process before it on its node.
fn overlaps(index: &Index, rows: &Rows, i: usize) -> bool
    requires fact_1 { i < PROCESSES }
    requires fact_2 { Bounded (laid index.now) }
    requires fact_3 { Readable (rows_of rows.now).comes (laid index.now).span }
    ensures { result ≡ row_overlaps (laid index.now) (rows_of rows.now) i }
{
    if comes_of(rows, i) == 0 {
        return false;
    }
    for j in 0..i {
        if together(index, rows, i, j) {
            return true;
        }
    }
    false
}

// Refusal 18: two processes overlap on a node.
pub fn overlap(index: &Index, rows: &Rows) -> bool
    requires fact_1 { Bounded (laid index.now) }
    requires fact_2 { Readable (rows_of rows.now).comes (laid index.now).span }
    ensures { result ≡ some_overlap (laid index.now) (rows_of rows.now) }
{
    let processes = processes_of(index);
    for i in 0..processes {
        if overlaps(index, rows, i) {
            return true;
        }
    }
    false
}
