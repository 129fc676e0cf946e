// The planner over a plan text: the listing, and the table, the frame list and the totals as bytes, words
// little-endian.
ghost use Rattle.c_text.specs.Listing.{Lists};
ghost use Rattle.c_interface.specs.Tables.{Tables};

use c_plan::put_plan;
use c_words::answered;
use program::list_plan;
use text_reader::read_plan;

// Reads a plan text, plans it, and writes its listing to the front of the lent bytes: how many bytes were written, or
// the first refusal that applies as 2^64 - 1 less its number, which leaves the lent bytes unchanged. 1 to 9 are those
// of the text; 10 is answered where the table has more than 3,000 entries, or the listing needs more bytes than lent;
// then 11, where it has more than 2,000 frames.
#[unsafe(no_mangle)]
pub extern "C" fn riscadru_plan_listing(text: &[u8], out: &mut [u8]) -> u64
    ensures { Lists text.now out.old out.new result }
{
    answered(list_plan(text, out))
}

// Reads a plan text and plans it: the start table goes to the front of `table`, the frame list to the front of
// `frames`, each as words of four bytes, the lowest first, and to the front of `totals`, as far as the bytes go, more
// words: how many words the table has, how many the frame list has, the worst delay, and the pass-over count of each
// node, in node order. How many bytes of `table` were written; or a refusal, 1 to 11, as 2^64 - 1 less its number,
// which leaves all lent bytes unchanged.
#[unsafe(no_mangle)]
pub extern "C" fn riscadru_plan_table(
    text: &[u8],
    table: &mut [u8],
    frames: &mut [u8],
    totals: &mut [u8],
) -> u64
    ensures { Tables text.now table.old frames.old totals.old
        table.new frames.new totals.new result }
{
    match read_plan(text) {
        Ok(p) => answered(put_plan(p, table, frames, totals)),
        Err(refusal) => answered(Err(refusal)),
    }
}
