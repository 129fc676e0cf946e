// The planner over bytes: a plan is planned, and its start table, frame list and totals are put into lent bytes, four
// bytes a word, the lowest first.
ghost use Rattle.std.specs.Prelude.{◌≡◌, ◌*◌, ◌/◌, ◌≤◌, length};
ghost use Rattle.limits.specs.Limits.{TABLEWORDS, FRAMEWORDS};
ghost use Rattle.model.specs.Table.{plan_answer};
ghost use Rattle.plan.specs.Memory.{lines};
ghost use Rattle.refusals.specs.Numbers.{numbered};
ghost use Rattle.c_plan.specs.Filled.{put_of, Filled};

use crate::stored::put_planned_words;
use arrays::zeros;
use c_words::{entry_words, how_many};
use limits::{FRAMEWORDS, NODES, TABLEWORDS};
use plan::Plan;
use planner::plan_table;
use refusals::Refusal;

// The words of 8,576 frames: no frame list has more.
fn frame_words() -> [u32; FRAMEWORDS]
    ensures { length result ≡ FRAMEWORDS }
{
    [0u32; FRAMEWORDS]
}

// Plans a plan into lent words, and puts the table, the frame list and the totals, as many as the plan has, as bytes to
// the front of lent bytes. How many bytes of the table were written.
fn put_planned(
    p: Plan,
    words: &mut [u32],
    framewords: &mut [u32],
    table: &mut [u8],
    frames: &mut [u8],
    totals: &mut [u8],
) -> Result<usize, Refusal>
    requires fact_1 { (length words.old ≤ TABLEWORDS) × (4 * length words.old ≤ length table.old) }
    requires fact_2 { (length framewords.old ≤ FRAMEWORDS) × (4 * length framewords.old ≤ length frames.old) }
    ensures answer { numbered result ≡ put_of (plan_answer (lines p) (length words.old)
        (length framewords.old)) }
    ensures bytes { Filled (plan_answer (lines p) (length words.old)
        (length framewords.old)) table.old frames.old totals.old
        table.new frames.new totals.new }
{
    let mut passed = zeros::<NODES>();
    let nodes = p.slots;
    let m = plan_table(p, words, framewords, &mut passed)?;
    put_planned_words(
        m,
        words,
        framewords,
        &passed[..nodes],
        table,
        frames,
        totals,
    );
    Ok(4 * m.words)
}

// Plans a plan, and puts the start table to the front of `table`, the frame list to the front of `frames`, each as
// words of four bytes, the lowest first, and to the front of `totals`, as far as the bytes go, more words: how many
// words the table has, how many the frame list has, the worst delay, and the pass-over count of each node, in node
// order. How many bytes of `table` were written; or a refusal, 2 to 11, which leaves all lent bytes unchanged.
pub fn put_plan(
    p: Plan,
    table: &mut [u8],
    frames: &mut [u8],
    totals: &mut [u8],
) -> Result<usize, Refusal>
    ensures answer { numbered result ≡ put_of (plan_answer (lines p) (length table.old / 4)
        (length frames.old / 4)) }
    ensures bytes { Filled (plan_answer (lines p) (length table.old / 4)
        (length frames.old / 4)) table.old frames.old totals.old
        table.new frames.new totals.new }
{
    let mut words = entry_words();
    let mut framewords = frame_words();
    let count = how_many(table).min(TABLEWORDS);
    let framecount = how_many(frames).min(FRAMEWORDS);
    put_planned(
        p,
        &mut words[..count],
        &mut framewords[..framecount],
        table,
        frames,
        totals,
    )
}
