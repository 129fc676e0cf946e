// What the planning program prints for a text.
ghost use Rattle.std.specs.Prelude.{◌≡◌, length};
ghost use Rattle.lists.specs.Front.{front};
ghost use Rattle.model.specs.Listing.{refused_line};
ghost use Rattle.program.specs.Printing.{Prints};

use crate::listed::list_plan;
use limits::LISTING;
use listing::write_refusal;

// Writes the line of a refusal to the front of the lent bytes: how many bytes were written.
fn print_refusal(number: u32, out: &mut [u8; LISTING]) -> usize
    ensures count { result ≡ length (refused_line number) }
    ensures bytes { out.new ≡ front (refused_line number) out.old }
{
    write_refusal(number, out).unwrap_or(0)
}

// Writes what the planning program prints for a text of any bytes to the front of the lent bytes, which always suffice:
// the listing, or the line of the first refusal that applies, 1 to 11. How many bytes were written.
pub fn print_all(text: &[u8], out: &mut [u8; LISTING]) -> usize
    ensures { Prints text.now out.old out.new result }
{
    match list_plan(text, out) {
        Ok(count) => count,
        Err(refusal) => print_refusal(refusal.number(), out),
    }
}
