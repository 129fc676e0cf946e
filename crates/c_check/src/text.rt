// A start table lent as bytes, checked for a plan text and answered as one number.
ghost use Rattle.std.specs.Prelude.{◌≡◌};
ghost use Rattle.c_check.specs.Checks.{Checks, checked_answer};

use crate::table::check_bytes;
use c_words::{numbered, refused};
use text_reader::read_plan;

// The number in which the checker's answer is given: 0 for an accepted table, or that of the refusal with this number.
pub fn checked(answer: Result<(), u32>) -> u64
    ensures { result ≡ checked_answer answer }
{
    match answer {
        Ok(()) => 0,
        Err(number) => refused(number),
    }
}

// Checks a table given as bytes, with the delay stated for it: 0 if it is accepted, or the first refusal, 1 to 9 of the
// plan text and 12 to 20 of the table, as 2^64 - 1 less its number.
pub fn check_text(text: &[u8], table: &[u8], delay: u64) -> u64
    ensures { Checks text.now table.now delay result }
{
    match read_plan(text) {
        Ok(p) => checked(numbered(check_bytes(p, table, delay))),
        Err(refusal) => refused(refusal.number()),
    }
}
