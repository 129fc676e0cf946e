// The plans of all combinations, one after another, in arrays: combination c's row r stands at place c * ROWS + r.
// specs/Combinations.antt says what the arrays hold.
// Document 01: "The pass-over count sums, over all combinations, every slot in which a ready item of its node was not
// taken."
#![tactic(auto)]

ghost use Rattle.std.specs.Prelude.{◌≡◌, ◌^◌, ◌<◌, ◌≤◌, length};
ghost use Rattle.limits.specs.Limits.{CONDITIONS, ENTRIES};
ghost use Rattle.model.specs.Plan.{Lines};
ghost use Rattle.model.specs.Refusals.{nothing, plan_refusal};
ghost use Rattle.plan_index.specs.Index.{laid};
ghost use Rattle.plan_layout.specs.Indexed.{Indexed};
ghost use Rattle.planner_combinations.specs.Combinations.{Laid_out, Before, One, PlannedAll};

use arrays::wide;
use bitset::combinations_of;
use limits::{COMBINATIONS, ENTRIES, NODES, NOTES};
use log_queries::last_end;
use log_rows::{Rows, empty_rows};
use plan_index::{Index, conditions_of, processes_of, slots_of};
use plan_layout::find_unmet;
use planner_combination::plan_combination;
use planner_nodes::empty_nodes;
use planner_prefix::{add_counts, shared_prefix, store_notes, store_rows};

// The worst delay, and by node in how many slots of all combinations a ready item was not taken.
#[derive(Clone, Copy)]
pub struct Totals {
    pub delay: u32,
    pub passed: [u32; NODES],
}

// How many combinations some conditions have, as an index.
pub fn how_many(conditions: usize) -> usize
    requires { conditions ≤ CONDITIONS }
    ensures { (result ≡ 2 ^ conditions) × (result ≤ 64) }
{
    wide(combinations_of(conditions))
}

// Plans combination c, where those below it are planned: stores its rows, up to which clock they are taken over, and
// what was noted for it, and adds its counts. The answer is the tick at which its last process ends, or 0. It is worked
// out in `rows`, whatever they hold before.
fn plan_one(
    index: &Index,
    c: usize,
    comes: &mut [u32; ENTRIES],
    place: &mut [u32; ENTRIES],
    since: &mut [u32; COMBINATIONS],
    notes: &mut [u32; NOTES],
    passed: &mut [u32; NODES],
    rows: &mut Rows,
) -> u32
    requires { Laid_out (laid index.now) × (c < 2 ^ (laid index.now).conditions)
        × Before (laid index.now) c comes.old place.old notes.old passed.old }
    ensures { (p : Lines) → plan_refusal p ≡ nothing → Indexed p (laid index.now) →
        One p (laid index.now).span c result comes.old place.old since.old
        notes.old passed.old comes.new place.new since.new
        notes.new passed.new }
{
    let mut nodes = empty_nodes();
    let clock = shared_prefix(index, c, comes, place, notes, rows, &mut nodes);
    let number = c as u32;
    find_unmet(index, number, rows);
    plan_combination(index, clock, rows, &mut nodes);
    since[c] = clock;
    store_rows(rows, c, comes, place);
    store_notes(&nodes, c, notes);
    add_counts(&nodes, slots_of(index), passed);
    last_end(rows, processes_of(index))
}

// Plans every combination: `comes` and `place` hold the log of combination c from place c * ROWS on. Its rows that
// start before clock `since[c]` are taken over from an earlier combination. `notes` is of ones, which are stored by
// fewer instructions than zeros are (docs/PERFORMANCE.md); none is read before its combination is stored.
pub fn plan_combinations(
    index: &Index,
    comes: &mut [u32; ENTRIES],
    place: &mut [u32; ENTRIES],
    since: &mut [u32; COMBINATIONS],
) -> Totals
    requires { Laid_out (laid index.now) × (length comes.old ≡ ENTRIES) × (length place.old ≡ ENTRIES)
        × (length since.old ≡ 64) }
    ensures { (p : Lines) → plan_refusal p ≡ nothing → Indexed p (laid index.now) →
        PlannedAll p (laid index.now).span result comes.new place.new since.new }
{
    let n = how_many(conditions_of(index));
    let mut notes = [1u32; NOTES];
    let mut passed = [0u32; NODES];
    let mut rows = empty_rows();
    let mut latest: u32 = 0;
    for c in 0..n {
        let last = plan_one(
            index,
            c,
            comes,
            place,
            since,
            &mut notes,
            &mut passed,
            &mut rows,
        );
        latest = latest.max(last);
    }
    Totals {
        delay: latest,
        passed,
    }
}
