// The kernel lookup and the row query over a table lent as bytes, words little-endian.
ghost use Rattle.std.specs.Prelude.{◌≡◌, ◌*◌};
ghost use Rattle.model.specs.Lookup.{row_start, row_length};
ghost use Rattle.model.specs.Firmware.{words_of, AnswersLookup};

use c_lookup::{lookup_text, row_length, row_start};

// Looks up, for a unit's kernel, the next entry of a table given as bytes: the number of the first entry, from number
// `first` on, of the node at the tick whose known bits are all heard, with the heard values at those bits; none as 2^64
// - 1; or refusal 1 to 9 of the plan text as 2^64 - 1 less its number.
#[unsafe(no_mangle)]
pub extern "C" fn riscadru_lookup(
    text: &[u8],
    table: &[u8],
    node: u32,
    tick: u32,
    heard: u32,
    values: u32,
    first: usize,
) -> u64
    ensures { AnswersLookup text.now table.now node tick heard values first result }
{
    lookup_text(text, table, node, tick, heard, values, first)
}

// Where the part of a table that holds a row's entries begins, in bytes; at the front where no entry is of that row.
#[unsafe(no_mangle)]
pub extern "C" fn riscadru_row_start(table: &[u8], row: u32) -> u64
    ensures { result ≡ 4 * row_start (words_of table.now) row }
{
    row_start(table, row) as u64
}

// How many bytes the part of a table has that holds a row's entries: from the first entry of that row to the next of
// another row.
#[unsafe(no_mangle)]
pub extern "C" fn riscadru_row_length(table: &[u8], row: u32) -> u64
    ensures { result ≡ 4 * row_length (words_of table.now) row }
{
    row_length(table, row) as u64
}
