// What the program that checks a printed table prints for an input.
ghost use Rattle.std.specs.Prelude.{◌≡◌, length};
ghost use Rattle.lists.specs.Front.{front};
ghost use Rattle.model.specs.ListingText.{plan_part, listing_part, check_prints};
ghost use Rattle.check_program.specs.Answer.{Checks, refusal_of, Prints};

use crate::texts::check_texts;
use limits::VERDICT;
use listing::put_refusal;
use listing_bytes::put_word;
use refusals::Refusal;
use text_reader::plan_length;

// Checks an input: a plan up to the first empty line, and behind it a listing, which is empty without an empty line.
fn check_input(input: &[u8]) -> Result<(), Refusal>
    ensures { Checks (plan_part input.now) (listing_part input.now) result }
{
    let at = plan_length(input);
    if at < input.len() {
        return check_texts(&input[..at], &input[at + 1..]);
    }
    check_texts(input, &input[at..])
}

// Writes the line of an answer to the front of the lent bytes, which suffice for any: how many bytes were written.
fn print_answer(answer: Result<(), Refusal>, out: &mut [u8; VERDICT]) -> usize
    ensures count { result ≡ length (check_prints (refusal_of answer)) }
    ensures bytes { out.new ≡ front (check_prints (refusal_of answer)) out.old }
{
    match answer {
        Ok(()) => put_word(out, 0, b"(accepted)\n"),
        Err(refusal) => put_refusal(out, refusal.number()),
    }
}

// Writes what the program prints for an input of any bytes to the front of the lent bytes, which always suffice:
// `(accepted)`, or the line of the first refusal that applies. How many bytes were written.
pub fn print_check(input: &[u8], out: &mut [u8; VERDICT]) -> usize
    ensures { Prints input.now out.old out.new result }
{
    print_answer(check_input(input), out)
}
