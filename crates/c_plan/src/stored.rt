// What the planner made put into lent bytes, four bytes a word, the lowest first.
ghost use Rattle.std.specs.Prelude.{◌≡◌, ◌∷◌, ◌*◌, ◌≤◌, length};
ghost use Rattle.limits.specs.Limits.{NODES, TABLEWORDS, FRAMEWORDS};
ghost use Rattle.lists.specs.Front.{front};
ghost use Rattle.c_plan.specs.Stored.{Stored};

use arrays::copy_at;
use c_words::{put_some, put_words};
use limits::TOTALS;
use planner::Made;

// Stores the totals of a plan as the first words: of the table, of the frame list, the worst delay, and the count of
// each node.
fn store_totals(m: Made, passed: &[u32], totals: &mut [u32; TOTALS])
    requires { (m.words ≤ TABLEWORDS) × (m.framewords ≤ FRAMEWORDS) × (length passed.now ≤ NODES) }
    ensures { totals.new ≡ front (m.words ∷ m.framewords ∷ m.delay ∷ passed.now)
        totals.old }
{
    totals[0] = m.words as u32;
    totals[1] = m.framewords as u32;
    totals[2] = m.delay;
    copy_at(passed, totals, 3);
}

// Puts what the planner made, the table at the front of `words` and the frame list at the front of `framewords`, and
// the totals with the counts of the nodes, to the front of lent bytes.
pub(crate) fn put_planned_words<'a>(
    m: Made,
    words: &'a [u32],
    framewords: &'a [u32],
    passed: &'a [u32],
    table: &mut [u8],
    frames: &mut [u8],
    totals: &mut [u8],
)
    requires fact_1 { (m.words ≤ TABLEWORDS) × (m.words ≤ length words.now) × (4 * m.words ≤ length table.old) }
    requires fact_2 { (m.framewords ≤ FRAMEWORDS) × (m.framewords ≤ length framewords.now)
        × (4 * m.framewords ≤ length frames.old) }
    requires fact_3 { length passed.now ≤ NODES }
    ensures { Stored m words.now framewords.now passed.now table.old
        frames.old totals.old table.new frames.new totals.new }
{
    put_words(&words[..m.words], table);
    put_words(&framewords[..m.framewords], frames);
    let mut numbers = [0u32; TOTALS];
    store_totals(m, passed, &mut numbers);
    let count = 3 + passed.len();
    put_some(&numbers[..count], totals);
}
