// Whether two items of a frame share a byte, read off what a combination's met entries leave by row. A row's `comes`
// is 0 where no entry of the row is met, else the met entry's tick plus what the row lasts, plus 1, so that the row
// starts at the clock comes - span, which is its tick plus 1.
ghost use Rattle.std.specs.Prelude.{◌≡◌, ◌<◌, get_or};
ghost use Rattle.limits.specs.Limits.{ROWS};
ghost use Rattle.plan_index.specs.Index.{laid, Bounded};
ghost use Rattle.log_rows.specs.Rows.{rows_of};
ghost use Rattle.checker_rows.specs.MetArrays.{Readable};
ghost use Rattle.checker_frames.specs.SharedBytes.{rows_lie, Sized};

use log_rows::{Rows, comes_of, place_of};
use plan_index::{Index, sender_of, size_of, span_of};

// The items of rows j and i, of which i is met, have one tick and node and share a byte.
pub(crate) fn lie(index: &Index, rows: &Rows, i: usize, j: usize) -> bool
    requires fact_1 { (i < ROWS) × (j < ROWS) × (get_or (rows_of rows.now).comes i 0 ≡ 0 → ⊥) }
    requires fact_2 { Bounded (laid index.now) }
    requires fact_3 { Readable (rows_of rows.now).comes (laid index.now).span }
    requires fact_4 { Sized (rows_of rows.now).comes (rows_of rows.now).place }
    ensures { result ≡ rows_lie (laid index.now) (rows_of rows.now) i j }
{
    let x = comes_of(rows, j);
    if x == 0 {
        return false;
    }
    let y = comes_of(rows, i);
    if x - span_of(index, j) != y - span_of(index, i) {
        return false;
    }
    if sender_of(index, j) != sender_of(index, i) {
        return false;
    }
    let a = place_of(rows, j);
    let b = place_of(rows, i);
    if a + size_of(index, j) <= b {
        return false;
    }
    if b + size_of(index, i) <= a {
        return false;
    }
    true
}
