// The listing of a text's plan in lent bytes, with refusals 1 to 11 in their order.
ghost use Rattle.std.specs.Prelude.{Err, ◌≡◌, ◌<◌, length};
ghost use Rattle.limits.specs.Limits.{NODES, PRINTEDWORDS, PRINTEDFRAMEWORDS, ENTRYFRAMEWORDS};
ghost use Rattle.model.specs.Refusals.{nothing, plan_refusal};
ghost use Rattle.model.specs.Listing.{words_listing, list_plan};
ghost use Rattle.model.specs.Text.{bytes_after};
ghost use Rattle.plan.specs.Memory.{lines};
ghost use Rattle.refusals.specs.Numbers.{number_of, numbered};
ghost use Rattle.text_lines.specs.Answer.{answer_of};
ghost use Rattle.program.specs.Listing.{listed_in, ListsPlan};

use arrays::zeros;
use limits::{ENTRYFRAMEWORDS, NODES, PRINTEDFRAMEWORDS, PRINTEDWORDS};
use listing::write_listing;
use listing_count::{Counts, exceeds};
use plan::Plan;
use planner_table::plan_accepted;
use refusals::Refusal;
use text_reader::read_plan;

// The refusal of a listing of more than 2,000 frames: 10 where it needs more bytes than lent, otherwise 11. The
// pass-over counts of the plan's nodes stand at the front of as many words as a plan may have nodes.
fn refused_frames<'a>(
    p: Plan,
    delay: u32,
    passed: &'a [u32],
    table: &'a [u32],
    frames: &'a [u32],
    lent: usize,
) -> Refusal
    requires fact_1 { PRINTEDFRAMEWORDS < length frames.now }
    requires fact_2 { length passed.now ≡ NODES }
    ensures { Err (number_of result) ≡ answer_of (listed_in lent (length frames.now)
        (words_listing (lines p) delay passed.now table.now frames.now)) }
{
    let nodes = p.slots.min(NODES);
    let passed = &passed[..nodes];
    let counts = Counts {
        processes: p.processes,
        edges: p.edges,
        conditions: p.conditions,
    };
    if exceeds(lent, counts, delay, passed, table, frames) {
        return Refusal::LentRoom;
    }
    Refusal::FrameRoom
}

// Writes the listing of a table and a frame list to the front of the lent bytes. 10 where it needs more bytes than
// lent, 11 where it has more than 2,000 frames; a refusal leaves the bytes unchanged.
fn list_words<'a>(
    p: Plan,
    delay: u32,
    passed: &'a [u32; NODES],
    table: &'a [u32],
    frames: &'a [u32],
    out: &mut [u8],
) -> Result<usize, Refusal>
    ensures answer { numbered result ≡ answer_of (listed_in (length out.old) (length frames.now)
        (words_listing (lines p) delay passed.now table.now frames.now)) }
    ensures bytes { out.new ≡ bytes_after
        (listed_in (length out.old) (length frames.now)
        (words_listing (lines p) delay passed.now table.now frames.now))
        out.old }
{
    if PRINTEDFRAMEWORDS < frames.len() {
        return Err(refused_frames(p, delay, passed, table, frames, out.len()));
    }
    write_listing(p, delay, passed, table, frames, out)
}

// Plans a plan in which refusals 2 to 9 find nothing into lent words, and writes its listing to the front of lent
// bytes, or answers refusal 10 or 11, which leaves them unchanged. The words suffice for the frame list of all entries
// that there is room for, and for the counts of all nodes that a plan may have.
fn list_planned(
    p: Plan,
    table: &mut [u32],
    frames: &mut [u32],
    passed: &mut [u32; NODES],
    out: &mut [u8],
) -> Result<usize, Refusal>
    requires fact_1 { plan_refusal (lines p) ≡ nothing }
    requires fact_2 { length table.old ≡ PRINTEDWORDS }
    requires fact_3 { length frames.old ≡ ENTRYFRAMEWORDS }
    ensures answer { numbered result ≡ answer_of (list_plan (lines p) (length out.old)) }
    ensures bytes { out.new ≡ bytes_after (list_plan (lines p) (length out.old))
        out.old }
{
    let m = plan_accepted(p, table, frames, passed)?;
    let words = m.words;
    let framewords = m.framewords;
    list_words(
        p,
        m.delay,
        passed,
        &table[..words],
        &frames[..framewords],
        out,
    )
}

// Reads a text of any bytes, plans it, and writes its listing to the front of the lent bytes: how many bytes were
// written, or the first refusal that applies, which leaves the lent bytes unchanged. 1 to 9 are those of the text; 10
// is answered where the table has more than 3,000 entries, or the listing needs more bytes than lent; then 11, where
// it has more than 2,000 frames. The words for the planner are of ones, which are stored by fewer instructions than
// zeros are (docs/PERFORMANCE.md).
pub fn list_plan(text: &[u8], out: &mut [u8]) -> Result<usize, Refusal>
    ensures { ListsPlan text.now out.old out.new result }
{
    let p = read_plan(text)?;
    let mut table = [1u32; PRINTEDWORDS];
    let mut frames = [1u32; ENTRYFRAMEWORDS];
    let mut passed = zeros::<NODES>();
    list_planned(p, &mut table, &mut frames, &mut passed, out)
}
