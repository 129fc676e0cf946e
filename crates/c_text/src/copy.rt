// A plan text read and written again to lent bytes, answered as one number.
ghost use Rattle.c_text.specs.Copy.{Copies};

use c_words::answered;
use text_reader::read_plan;
use text_writer::write_plan;

// Reads a plan text and writes the plan again, to the front of the lent bytes: how many bytes were written, or a
// refusal, 1 to 10, as 2^64 - 1 less its number, which leaves the lent bytes unchanged.
pub fn copy_text(text: &[u8], out: &mut [u8]) -> u64
    ensures { Copies text.now out.old out.new result }
{
    match read_plan(text) {
        Ok(p) => answered(write_plan(p, out)),
        Err(refusal) => answered(Err(refusal)),
    }
}
