// The table checker: a plan in memory and a table in, as the words of a start table with the delay stated for it, or as
// a printed listing; accepted, or the first refusal that applies, out.
// Document 01: "A table is sound, for a plan in which 2 to 9 find nothing and a stated delay, when 12 to 20 find
// nothing."
#![tactic(auto)]

ghost use Rattle.std.specs.Prelude.{◌≡◌};
ghost use Rattle.model.specs.Checking.{check};
ghost use Rattle.plan.specs.Memory.{lines};
ghost use Rattle.refusals.specs.Numbers.{numbered};
ghost use Rattle.checker_table.specs.Verdict.{answer_of};
ghost use Rattle.checker_listing.specs.Listing.{Checks};

use checker_listing::check_listed;
use checker_table::check_words;
use plan::Plan;
use plan_refusals::refuse;
use refusals::Refusal;

// Checks any words as a start table, five words to an entry, with any delay stated for it, for any plan in memory.
pub fn check_table(p: Plan, table: &[u32], delay: u64) -> Result<(), Refusal>
    ensures { numbered result ≡ answer_of (check (lines p) table.now delay) }
{
    refuse(p)?;
    check_words(p, table, delay)
}

// Checks a listing text of any bytes for any plan in memory: 2 to 9 of the plan, then 21, 12 to 20 and 22.
pub fn check_listing(p: Plan, listing: &[u8]) -> Result<(), Refusal>
    ensures { Checks (lines p) listing.now result }
{
    refuse(p)?;
    check_listed(p, listing)
}
