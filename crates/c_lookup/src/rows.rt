// The row query over the bytes of a table: its words, four bytes each, are read where they lie.
ghost use Rattle.std.specs.Prelude.{◌≡◌, ◌*◌, ◌/◌, ◌≤◌, length};
ghost use Rattle.model.specs.Firmware.{words_of};
ghost use Rattle.model.specs.Lookup.{row_start, row_length};
ghost use Rattle.kernel_rows.specs.RowRange.{RangeOf};

use c_words::{how_many, word_at};
use kernel_rows::row_range;
use std::ops::Range;

// The entries of a row, by their numbers: from the first entry of that row to the next of another row.
fn row_entries(bytes: &[u8], row: u32) -> Range<usize>
    ensures value { RangeOf (words_of bytes.now) row result.start result.end }
    ensures result_in_bounds { (result.start ≤ result.end) × (result.end ≤ length (words_of bytes.now) / 5) }
{
    row_range(how_many(bytes) / 5, row, &|i| word_at(bytes, i * 5))
}

// Where the part of a table that holds a row's entries begins, in bytes; at the front where no entry is of that row.
pub fn row_start(bytes: &[u8], row: u32) -> usize
    ensures { result ≡ 4 * row_start (words_of bytes.now) row }
{
    let entries = row_entries(bytes, row);
    if entries.is_empty() {
        return 0;
    }
    entries.start * 20
}

// How many bytes the part of a table has that holds a row's entries: from the first entry of that row to the next of
// another row.
pub fn row_length(bytes: &[u8], row: u32) -> usize
    ensures { result ≡ 4 * row_length (words_of bytes.now) row }
{
    let entries = row_entries(bytes, row);
    (entries.end - entries.start) * 20
}
