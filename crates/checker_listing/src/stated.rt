// What a listing states, for a plan in which refusals 2 to 9 find nothing: its table and its delay first, then its
// frames, then its pass-over counts.
ghost use Rattle.std.specs.Prelude.{◌≡◌, ℕ, ◌%◌, ◌≤◌, length, take};
ghost use Rattle.limits.specs.Limits.{NODES, PRINTEDFRAMEWORDS};
ghost use Rattle.model.specs.Refusals.{nothing, plan_refusal};
ghost use Rattle.model.specs.Checking.{Sound};
ghost use Rattle.model.specs.ListingText.{stated_refusal};
ghost use Rattle.plan.specs.Memory.{lines};
ghost use Rattle.refusals.specs.Numbers.{numbered};
ghost use Rattle.checker_table.specs.Verdict.{answer_of};
ghost use Rattle.checker_listing.specs.Stated.{stated_in};

use crate::counts::same_counts;
use crate::frames::gives_frames;
use arrays::zeros;
use checker_table::check_words;
use limits::NODES;
use plan::Plan;
use plan_layout::of_plan;
use planner_table::count_pass_overs;
use refusals::Refusal;

// Refusal 22 where 12 to 20 find nothing: the frames are not those that the entries give, or the pass-over count of a
// node is not the plan's.
fn check_sound(p: Plan, table: &[u32], frames: &[u32], passed: &[u32; NODES]) -> Result<(), Refusal>
    requires fact_1 { ((delay : ℕ) × Sound (lines p) table.now delay) }
    requires fact_2 { (length frames.now % 3 ≡ 0)
        × (length frames.now ≤ PRINTEDFRAMEWORDS) × (length passed.now ≡ NODES) }
    ensures { (delay : ℕ) → Sound (lines p) table.now delay → numbered result ≡ answer_of (stated_refusal (lines p)
        (stated_in table.now frames.now delay (take p.slots passed.now))) }
{
    let index = of_plan(p);
    if !gives_frames(&index, table, frames) {
        return Err(Refusal::ListedFrames);
    }
    let mut counts = zeros::<NODES>();
    count_pass_overs(p, &mut counts);
    if !same_counts(passed, &counts, p.slots) {
        return Err(Refusal::ListedFrames);
    }
    Ok(())
}

// Checks what a listing states: five words to an entry, three to a frame, the pass-over counts of the plan's nodes at
// the front of `passed`, and the delay.
pub(crate) fn check_stated(
    p: Plan,
    table: &[u32],
    frames: &[u32],
    passed: &[u32; NODES],
    delay: u32,
) -> Result<(), Refusal>
    requires fact_1 { plan_refusal (lines p) ≡ nothing }
    requires fact_2 { (length table.now % 5 ≡ 0) × (length frames.now % 3 ≡ 0)
        × (length frames.now ≤ PRINTEDFRAMEWORDS) × (length passed.now ≡ NODES) }
    ensures { numbered result ≡ answer_of (stated_refusal (lines p)
        (stated_in table.now frames.now delay (take p.slots passed.now))) }
{
    check_words(p, table, u64::from(delay))?;
    check_sound(p, table, frames, passed)
}
