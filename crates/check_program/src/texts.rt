// A listing text checked for a plan text.
ghost use Rattle.check_program.specs.Answer.{Checks};

use checker_listing::check_listed;
use refusals::Refusal;
use text_reader::read_plan;

// Checks a listing text of any bytes for a plan text of any bytes: accepted, or the first refusal that applies, 1 to 9
// of the plan text, 21, 12 to 20 and 22 of the listing.
pub fn check_texts(text: &[u8], listing: &[u8]) -> Result<(), Refusal>
    ensures { Checks text.now listing.now result }
{
    let p = read_plan(text)?;
    check_listed(p, listing)
}
