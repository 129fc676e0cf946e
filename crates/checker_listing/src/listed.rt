// A listing text checked for a plan in which refusals 2 to 9 find nothing: 21, then 12 to 20, then 22.
ghost use Rattle.std.specs.Prelude.{◌≡◌, ◌≤◌, length};
ghost use Rattle.limits.specs.Limits.{PRINTEDWORDS, PRINTEDFRAMEWORDS};
ghost use Rattle.model.specs.Refusals.{nothing, plan_refusal};
ghost use Rattle.plan.specs.Memory.{lines};
ghost use Rattle.checker_listing.specs.Listing.{Checks};

use crate::stated::check_stated;
use arrays::zeros;
use limits::{NODES, PRINTEDFRAMEWORDS, PRINTEDWORDS};
use listing_reader::read_listing;
use plan::Plan;
use refusals::Refusal;

// Reads a listing text into lent words, and checks what it states.
fn check_read(p: Plan, listing: &[u8], table: &mut [u32], frames: &mut [u32]) -> Result<(), Refusal>
    requires fact_1 { plan_refusal (lines p) ≡ nothing }
    requires fact_2 { (PRINTEDWORDS ≤ length table.old) × (PRINTEDFRAMEWORDS ≤ length frames.old) }
    ensures { Checks (lines p) listing.now result }
{
    let mut passed = zeros::<NODES>();
    let s = read_listing(
        listing,
        p.slots,
        p.processes,
        p.edges,
        p.conditions,
        table,
        frames,
        &mut passed,
    )?;
    let words = s.words;
    let framewords = s.framewords;
    check_stated(p, &table[..words], &frames[..framewords], &passed, s.delay)
}

// Checks a listing text of any bytes for a plan in which refusals 2 to 9 find nothing: accepted, or the first refusal
// that applies. The lent words are of ones, which are stored by fewer instructions than zeros are
// (docs/PERFORMANCE.md).
pub fn check_listed(p: Plan, listing: &[u8]) -> Result<(), Refusal>
    requires { plan_refusal (lines p) ≡ nothing }
    ensures { Checks (lines p) listing.now result }
{
    let mut table = [1u32; PRINTEDWORDS];
    let mut frames = [1u32; PRINTEDFRAMEWORDS];
    check_read(p, listing, &mut table, &mut frames)
}
