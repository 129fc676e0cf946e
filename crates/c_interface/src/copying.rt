// Reading and writing a plan text, as other software calls it.
ghost use Rattle.c_text.specs.Copy.{Copies};

use c_text::copy_text;

// Reads a plan text and writes the plan again, to the front of the lent bytes: how many bytes were written, or a
// refusal, 1 to 10, as 2^64 - 1 less its number, which leaves the lent bytes unchanged.
#[unsafe(no_mangle)]
pub extern "C" fn riscadru_copy_plan(text: &[u8], out: &mut [u8]) -> u64
    ensures { Copies text.now out.old out.new result }
{
    copy_text(text, out)
}
