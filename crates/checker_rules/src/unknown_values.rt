// Refusal 15 of one combination, read off what its met entries leave by row. A row's `comes` is 0 where no entry of the
// row is met, else the met entry's tick plus what the row lasts, plus 1, so that the row starts at the clock
// comes - span, which is its tick plus 1.
ghost use Rattle.std.specs.Prelude.{◌≡◌, ◌<◌};
ghost use Rattle.limits.specs.Limits.{ROWS};
ghost use Rattle.plan_index.specs.Index.{laid, Bounded};
ghost use Rattle.log_rows.specs.Rows.{rows_of};
ghost use Rattle.checker_rows.specs.MetArrays.{Readable};
ghost use Rattle.checker_rules.specs.Rules.{row_unknown, some_unknown};

use limits::ROWS;
use log_queries::known;
use log_rows::{COMES_AT, Rows, comes_of};
use plan_index::{Index, conditionrow_of, conditions_of, rows_of, span_of};

// Row r is met in a column that has a condition not known by the row's tick.
fn row_uses_unknown(index: &Index, rows: &Rows, column: &[u32; ROWS], r: usize) -> bool
    requires fact_1 { r < ROWS }
    requires fact_2 { Bounded (laid index.now) }
    requires fact_3 { Readable (rows_of rows.now).comes (laid index.now).span }
    ensures { result ≡ row_unknown (laid index.now) (rows_of rows.now) column.now r }
{
    let x = comes_of(rows, r);
    if x == 0 {
        return false;
    }
    let u = x - span_of(index, r);
    let first = COMES_AT + conditionrow_of(index);
    let mask = known(rows, first, conditions_of(index), u);
    let bits = column[r];
    bits & mask != bits
}

// Refusal 15: some met entry's column has a condition whose value is not known by the entry's tick. `column` has, by
// row, the known bits of the met entry's column.
pub fn uses_unknown(index: &Index, rows: &Rows, column: &[u32; ROWS]) -> bool
    requires fact_1 { Bounded (laid index.now) }
    requires fact_2 { Readable (rows_of rows.now).comes (laid index.now).span }
    ensures { result ≡ some_unknown (laid index.now) (rows_of rows.now)
        column.now }
{
    let end = rows_of(index);
    for r in 0..end {
        if row_uses_unknown(index, rows, column, r) {
            return true;
        }
    }
    false
}
