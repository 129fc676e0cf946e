// The checker over a start table lent as bytes, words little-endian, and over a printed listing.
ghost use Rattle.c_check.specs.Checks.{Checks};
ghost use Rattle.c_interface.specs.Listings.{ChecksListingText};

use c_check::{check_text, checked};
use c_words::numbered;
use check_program::check_texts;

// Checks a table given as bytes, with the delay stated for it: 0 if it is accepted, or the first refusal, 1 to 9 of the
// plan text and 12 to 20 of the table, as 2^64 - 1 less its number.
#[unsafe(no_mangle)]
pub extern "C" fn riscadru_check_table(text: &[u8], table: &[u8], delay: u64) -> u64
    ensures { Checks text.now table.now delay result }
{
    check_text(text, table, delay)
}

// Checks a listing text, as the planning program prints it, for a plan text: 0 if it is accepted, or the first refusal,
// 1 to 9 of the plan text, then 21, 12 to 20 and 22 of the listing, as 2^64 - 1 less its number.
#[unsafe(no_mangle)]
pub extern "C" fn riscadru_check_listing(text: &[u8], listing: &[u8]) -> u64
    ensures { ChecksListingText text.now listing.now result }
{
    checked(numbered(check_texts(text, listing)))
}
