// The planner: a plan in memory in, a start table, a frame list and the pass-over counts of the nodes out, as words
// that the caller lends.
// Document 01: "every lent buffer keeps its contents; an accepted call leaves words beyond its output unchanged"
#![tactic(auto)]

ghost use Rattle.std.specs.Prelude.{◌≡◌, length};
ghost use Rattle.model.specs.Table.{plan_answer, table_after, frames_after, counts_after};
ghost use Rattle.plan.specs.Memory.{lines};
ghost use Rattle.planner_table.specs.Planner.{answer_of};
ghost use Rattle.refusals.specs.Numbers.{numbered};

use limits::NODES;
use plan::Plan;
use plan_refusals::refuse;
pub use planner_table::Made;
use planner_table::plan_accepted;
use refusals::Refusal;

// Plans any plan in memory: the start table is written to the front of `table`, five words to an entry, and the frame
// list to the front of `frames`, three words to a frame, and to the front of `passed` go the pass-over counts of the
// nodes, node 0's first: in how many slots of that node, over all combinations, a ready item was not taken. Words
// beyond them stay as they were. A refusal, 2 to 11, leaves every lent word as it was.
pub fn plan_table(
    p: Plan,
    table: &mut [u32],
    frames: &mut [u32],
    passed: &mut [u32; NODES],
) -> Result<Made, Refusal>
    ensures answer { numbered result ≡ answer_of (plan_answer (lines p) (length table.old)
        (length frames.old)) }
    ensures table { table.new ≡ table_after (plan_answer (lines p) (length table.old)
        (length frames.old)) table.old }
    ensures frames { frames.new ≡ frames_after
        (plan_answer (lines p) (length table.old) (length frames.old)) frames.old }
    ensures counts { passed.new ≡ counts_after
        (plan_answer (lines p) (length table.old) (length frames.old)) passed.old }
{
    refuse(p)?;
    plan_accepted(p, table, frames, passed)
}
