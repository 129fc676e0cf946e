// Refusal 19 of one combination, read off what its met entries leave by row. A row's `comes` is 0 where no entry of the
// row is met, else the met entry's tick plus what the row lasts, plus 1. specs/SharedBytes.antt says what each function
// answers in the words of the arrays.
ghost use Rattle.std.specs.Prelude.{◌≡◌, ◌<◌, get_or};
ghost use Rattle.limits.specs.Limits.{ROWS, BYTES};
ghost use Rattle.plan_index.specs.Index.{laid, Bounded};
ghost use Rattle.log_rows.specs.Rows.{rows_of};
ghost use Rattle.checker_rows.specs.MetArrays.{Readable};
ghost use Rattle.checker_frames.specs.SharedBytes.{row_passes, row_shares, some_share, Sized};

use crate::item_pairs::lie;
use log_rows::{Rows, comes_of, place_of};
use plan_index::{Index, processes_of, rooms_of, rows_of, sender_of, size_of};

// The item of row r passes the last byte of its sender's slot.
fn passes(index: &Index, rows: &Rows, r: usize) -> bool
    requires { (r < ROWS) × (get_or (rows_of rows.now).place r 0 < BYTES) × Bounded (laid index.now) }
    ensures { result ≡ row_passes (laid index.now) (rows_of rows.now) r }
{
    let n = sender_of(index, r);
    let place = place_of(rows, r);
    let size = size_of(index, r);
    rooms_of(index, n) < place + size
}

// The item of row i is met, and passes its slot's last byte or shares a byte with an item of a row before.
fn shares(index: &Index, rows: &Rows, i: usize) -> bool
    requires fact_1 { i < ROWS }
    requires fact_2 { Bounded (laid index.now) }
    requires fact_3 { Readable (rows_of rows.now).comes (laid index.now).span }
    requires fact_4 { Sized (rows_of rows.now).comes (rows_of rows.now).place }
    ensures { result ≡ row_shares (laid index.now) (rows_of rows.now) i }
{
    if comes_of(rows, i) == 0 {
        return false;
    }
    if passes(index, rows, i) {
        return true;
    }
    for j in processes_of(index)..i {
        if lie(index, rows, i, j) {
            return true;
        }
    }
    false
}

// Refusal 19: two items of a frame share a byte, or one passes the slot's last byte.
pub fn share_byte(index: &Index, rows: &Rows) -> bool
    requires fact_1 { Bounded (laid index.now) }
    requires fact_2 { Readable (rows_of rows.now).comes (laid index.now).span }
    requires fact_3 { Sized (rows_of rows.now).comes (rows_of rows.now).place }
    ensures { result ≡ some_share (laid index.now) (rows_of rows.now) }
{
    let end = rows_of(index);
    for i in processes_of(index)..end {
        if shares(index, rows, i) {
            return true;
        }
    }
    false
}
