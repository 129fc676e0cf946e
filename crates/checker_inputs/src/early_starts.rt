// Refusal 16 of one combination, read off what its met entries leave by row. A row's `comes` is 0 where no entry of the
// row is met, else the met entry's tick plus what the row lasts, plus 1, so that the row starts at the clock
// comes - span, which is its tick plus 1; `run` is 0 where a process is not active in the combination.
// specs/Inputs.antt says what each function answers in the words of the arrays.
ghost use Rattle.std.specs.Prelude.{◌≡◌, ◌<◌, ◌≤◌};
ghost use Rattle.limits.specs.Limits.{PROCESSES};
ghost use Rattle.plan_index.specs.Index.{laid, Bounded};
ghost use Rattle.log_rows.specs.Rows.{rows_of};
ghost use Rattle.checker_rows.specs.MetArrays.{Readable};
ghost use Rattle.checker_rows.specs.RowOrder.{RowOrder};
ghost use Rattle.checker_inputs.specs.Inputs.{sender_in, row_early_in, some_early};

use crate::undelivered::misses_some;
use log_queries::came;
use log_rows::{Rows, comes_of};
use plan_index::{
    Index, conditionrow_of, decider_of, from_of, intofirst_of, processes_of, rows_of, span_of,
};

// The process that sends the item of row r: a message's sender, or the decider of a condition.
fn sends(index: &Index, r: usize) -> usize
    requires { ((laid index.now).processes ≤ r) × (r < (laid index.now).rows) × Bounded (laid index.now)
        × RowOrder (laid index.now) }
    ensures { (result ≡ sender_in (laid index.now) r) × (result < PROCESSES) }
{
    let conditionrow = conditionrow_of(index);
    if r < conditionrow {
        return from_of(index, r - processes_of(index));
    }
    decider_of(index, r - conditionrow)
}

// Row r is met too early: a process before a carrying edge into it has delivered, an item before its sender's end.
fn row_early(index: &Index, rows: &Rows, r: usize) -> bool
    requires fact_1 { (r < (laid index.now).rows) × Bounded (laid index.now) × RowOrder (laid index.now) }
    requires fact_2 { Readable (rows_of rows.now).comes (laid index.now).span }
    ensures { result ≡ row_early_in (laid index.now) (rows_of rows.now) r }
{
    let x = comes_of(rows, r);
    if x == 0 {
        return false;
    }
    let u = x - span_of(index, r);
    if r < processes_of(index) {
        let a = intofirst_of(index, r);
        let b = intofirst_of(index, r + 1);
        return misses_some(index, rows, a, b, u);
    }
    let i = sends(index, r);
    !came(comes_of(rows, i), u)
}

// Refusal 16: some process starts before a carrying edge into it has delivered, or some item before its sender's end.
pub fn too_early(index: &Index, rows: &Rows) -> bool
    requires fact_1 { Bounded (laid index.now) × RowOrder (laid index.now) }
    requires fact_2 { Readable (rows_of rows.now).comes (laid index.now).span }
    ensures { result ≡ some_early (laid index.now) (rows_of rows.now) }
{
    let end = rows_of(index);
    for r in 0..end {
        if row_early(index, rows, r) {
            return true;
        }
    }
    false
}
