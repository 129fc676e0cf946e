// The kernel lookup over a plan text and a table lent as bytes, answered as one number.
ghost use Rattle.model.specs.Firmware.{AnswersLookup};

use crate::table::lookup_bytes;
use c_words::answered;
use text_reader::read_plan;

// Looks up, for a unit's kernel, the next entry of a table given as bytes: the number of the first entry, from number
// `first` on, of the node at the tick whose known bits are all heard, with the heard values at those bits; none as 2^64
// - 1; or refusal 1 to 9 of the plan text as 2^64 - 1 less its number.
pub fn lookup_text(
    text: &[u8],
    table: &[u8],
    node: u32,
    tick: u32,
    heard: u32,
    values: u32,
    first: usize,
) -> u64
    ensures { AnswersLookup text.now table.now node tick heard values first result }
{
    match read_plan(text) {
        Ok(p) => {
            let entry = lookup_bytes(p, table, node, tick, heard, values, first);
            answered(Ok(entry.unwrap_or(usize::MAX)))
        }
        Err(refusal) => answered(Err(refusal)),
    }
}
