// The archive for C: each function of c_interface under its name, with the same contract. A crate is a library or an
// archive, not both, so that C's names stand apart from the functions that other crates call; c_interface says what
// each one answers, and include/riscadru.h says it for C.
// Document 01: "The firmware calls the lookup from C with numbers and byte slices"
#![tactic(auto)]

ghost use Rattle.std.specs.Prelude.{◌≡◌, ◌*◌};
ghost use Rattle.c_check.specs.Checks.{Checks};
ghost use Rattle.c_interface.specs.Listings.{ChecksListingText};
ghost use Rattle.c_interface.specs.Tables.{Tables};
ghost use Rattle.c_text.specs.Copy.{Copies};
ghost use Rattle.c_text.specs.Listing.{Lists};
ghost use Rattle.model.specs.Firmware.{words_of, AnswersLookup};
ghost use Rattle.model.specs.Lookup.{row_start, row_length};

// Reads a plan text and writes the plan again.
#[unsafe(no_mangle)]
pub extern "C" fn riscadru_copy_plan(text: &[u8], out: &mut [u8]) -> u64
    ensures { Copies text.now out.old out.new result }
{
    c_interface::riscadru_copy_plan(text, out)
}

// Reads a plan text, plans it, and writes its listing.
#[unsafe(no_mangle)]
pub extern "C" fn riscadru_plan_listing(text: &[u8], out: &mut [u8]) -> u64
    ensures { Lists text.now out.old out.new result }
{
    c_interface::riscadru_plan_listing(text, out)
}

// Reads a plan text and plans it: the start table, the frame list and the totals, as words.
#[unsafe(no_mangle)]
pub extern "C" fn riscadru_plan_table(
    text: &[u8],
    table: &mut [u8],
    frames: &mut [u8],
    totals: &mut [u8],
) -> u64
    ensures { Tables text.now table.old frames.old totals.old
        table.new frames.new totals.new result }
{
    c_interface::riscadru_plan_table(text, table, frames, totals)
}

// Checks a table given as bytes, with the delay stated for it.
#[unsafe(no_mangle)]
pub extern "C" fn riscadru_check_table(text: &[u8], table: &[u8], delay: u64) -> u64
    ensures { Checks text.now table.now delay result }
{
    c_interface::riscadru_check_table(text, table, delay)
}

// Checks a listing text for a plan text.
#[unsafe(no_mangle)]
pub extern "C" fn riscadru_check_listing(text: &[u8], listing: &[u8]) -> u64
    ensures { ChecksListingText text.now listing.now result }
{
    c_interface::riscadru_check_listing(text, listing)
}

// Looks up, for a unit's kernel, the next entry of a table given as bytes.
#[unsafe(no_mangle)]
pub extern "C" fn riscadru_lookup(
    text: &[u8],
    table: &[u8],
    node: u32,
    tick: u32,
    heard: u32,
    values: u32,
    first: usize,
) -> u64
    ensures { AnswersLookup text.now table.now node tick heard values first result }
{
    c_interface::riscadru_lookup(text, table, node, tick, heard, values, first)
}

// Where the part of a table that holds a row's entries begins, in bytes.
#[unsafe(no_mangle)]
pub extern "C" fn riscadru_row_start(table: &[u8], row: u32) -> u64
    ensures { result ≡ 4 * row_start (words_of table.now) row }
{
    c_interface::riscadru_row_start(table, row)
}

// How many bytes the part of a table has that holds a row's entries.
#[unsafe(no_mangle)]
pub extern "C" fn riscadru_row_length(table: &[u8], row: u32) -> u64
    ensures { result ≡ 4 * row_length (words_of table.now) row }
{
    c_interface::riscadru_row_length(table, row)
}
