// Planning a plan in which refusals 2 to 9 find nothing, into words that the caller lends: every combination is
// planned, entries and frames are listed, and table, frame list and the nodes' pass-over counts are written only where
// both lists fit.
// Document 01: "every lent buffer keeps its contents; an accepted call leaves words beyond its output unchanged"
#![tactic(auto)]

ghost use Rattle.std.specs.Prelude.{◌≡◌, map, ◌≤◌, get_or, length};
ghost use Rattle.limits.specs.Limits.{NODES, COMBINATIONS, ROWENDS, ENTRIES};
ghost use Rattle.lists.specs.Front.{front};
ghost use Rattle.lists.specs.Lists.{below};
ghost use Rattle.model.specs.Plan.{Lines};
ghost use Rattle.model.specs.Refusals.{nothing, plan_refusal};
ghost use Rattle.model.specs.Table.{result as result_of};
ghost use Rattle.plan.specs.Memory.{lines};
ghost use Rattle.plan_index.specs.Index.{laid};
ghost use Rattle.plan_layout.specs.Indexed.{Indexed};
ghost use Rattle.table_entries.specs.Logs.{Logs};
ghost use Rattle.planner_combinations.specs.Combinations.{PlannedAll};
ghost use Rattle.planner_table.specs.Planner.{SomeLogs, SomePlans, Entered, Answers};

use limits::{COMBINATIONS, ENTRIES, NODES, ROWENDS};
use plan::Plan;
use plan_index::{Index, conditions_of, rows_of, slots_of};
use plan_layout::of_plan;
use planner_combinations::{Totals, how_many, plan_combinations};
use refusals::Refusal;
use table_entries::all_entries;
use table_frames::{collect, write_both};

// What the planner answers where nothing is refused: how many words of the table and of the frame list are written, and
// the worst delay. The counts of the nodes stand in words that the caller lends.
#[derive(Clone, Copy)]
pub struct Made {
    pub words: usize,
    pub framewords: usize,
    pub delay: u32,
}

// The entries of the table as numbers in `list`, row r's from place ends[r] up to place ends[r + 1]. How many there are
// in all. A row that starts before clock `since[c]` in combination c has the same entry in an earlier combination, and
// is listed there.
fn list_entries(
    index: &Index,
    comes: &[u32; ENTRIES],
    place: &[u32; ENTRIES],
    since: &[u32; COMBINATIONS],
    list: &mut [u64; ENTRIES],
    ends: &mut [u32; ROWENDS],
) -> usize
    requires { SomeLogs (laid index.now) comes.now place.now since.now × (length list.old ≡ ENTRIES)
        × (length ends.old ≡ ROWENDS) }
    ensures { (p : Lines) → plan_refusal p ≡ nothing → Indexed p (laid index.now) →
        Logs p comes.now place.now since.now (laid index.now).span →
        Entered p list.new ends.new result }
{
    let combinations = how_many(conditions_of(index));
    all_entries(index, comes, place, since, combinations, list, ends)
}

// Stores the counts of the nodes, node 0's first, as the first numbers of `passed`.
fn store_counts(t: Totals, slots: usize, passed: &mut [u32; NODES])
    requires { slots ≤ NODES }
    ensures { passed.new ≡ front (map (λ n. get_or t.passed n 0) (below slots))
        passed.old }
{
    passed[..slots].copy_from_slice(&t.passed[..slots]);
}

// Lists the entries and the frames of the table, and writes both, and the counts of the nodes, where the lent words
// suffice. The lists are of ones, which are stored by fewer instructions than zeros are (docs/PERFORMANCE.md); none is
// read before it is stored.
fn write_all(
    index: &Index,
    t: Totals,
    comes: &[u32; ENTRIES],
    place: &[u32; ENTRIES],
    since: &[u32; COMBINATIONS],
    table: &mut [u32],
    frames: &mut [u32],
    passed: &mut [u32; NODES],
) -> Result<Made, Refusal>
    requires { SomePlans (laid index.now) t comes.now place.now since.now }
    ensures { (p : Lines) → plan_refusal p ≡ nothing → Indexed p (laid index.now) →
        PlannedAll p (laid index.now).span t comes.now place.now
        since.now → Answers p result table.old frames.old passed.old
        table.new frames.new passed.new }
{
    let rows = rows_of(index);
    let mut list = [1u64; ENTRIES];
    let mut ends = [0u32; ROWENDS];
    let count = list_entries(index, comes, place, since, &mut list, &mut ends);
    if table.len() < 5 * count {
        return Err(Refusal::LentRoom);
    }
    let mut out = [1u64; ENTRIES];
    let used = collect(index, &list, &ends, &mut out);
    if write_both(&list, &ends, rows, &out, used, table, frames) {
        store_counts(t, slots_of(index), passed);
        return Ok(Made {
            words: 5 * count,
            framewords: 3 * used,
            delay: t.delay,
        });
    }
    Err(Refusal::FrameRoom)
}

// Plans a plan in which refusals 2 to 9 find nothing: the table, the frame list, and the pass-over count of each node,
// in node order, go to the front of what is lent. `comes` and `place` are of ones, which are stored by fewer
// instructions than zeros are (docs/PERFORMANCE.md); none is read before its combination is stored.
pub fn plan_accepted(
    p: Plan,
    table: &mut [u32],
    frames: &mut [u32],
    passed: &mut [u32; NODES],
) -> Result<Made, Refusal>
    requires { plan_refusal (lines p) ≡ nothing }
    ensures { Answers (lines p) result table.old frames.old passed.old
        table.new frames.new passed.new }
{
    let index = of_plan(p);
    let mut comes = [1u32; ENTRIES];
    let mut place = [1u32; ENTRIES];
    let mut since = [0u32; COMBINATIONS];
    let t = plan_combinations(&index, &mut comes, &mut place, &mut since);
    write_all(&index, t, &comes, &place, &since, table, frames, passed)
}

// The pass-over count of each node of a plan in which refusals 2 to 9 find nothing, in node order at the front of what
// is lent, whatever room its table would need.
pub fn count_pass_overs(p: Plan, passed: &mut [u32; NODES])
    requires { plan_refusal (lines p) ≡ nothing }
    ensures { passed.new ≡ front (result_of (lines p)).passed passed.old }
{
    let index = of_plan(p);
    let mut comes = [1u32; ENTRIES];
    let mut place = [1u32; ENTRIES];
    let mut since = [0u32; COMBINATIONS];
    let t = plan_combinations(&index, &mut comes, &mut place, &mut since);
    store_counts(t, slots_of(&index), passed);
}
