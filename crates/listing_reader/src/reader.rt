// The reader of listing texts.
ghost use Rattle.std.specs.Prelude.{◌≡◌, ◌≤◌, length};
ghost use Rattle.limits.specs.Limits.{NODES, PRINTEDWORDS, PRINTEDFRAMEWORDS};
ghost use Rattle.model.specs.Plan.{Lines};
ghost use Rattle.model.specs.Refusals.{nothing, plan_refusal};
ghost use Rattle.listing_scanner.specs.Lines.{Few};
ghost use Rattle.listing_reader.specs.Answer.{Counted, SomePlan, ReadsListing};
ghost use Rattle.listing_reader.specs.Runs.{LinesRead};

use crate::entries::read_entries;
use crate::frames::read_frames;
use crate::passed::read_passed;
use arrays::copy_part;
use limits::{NODES, PRINTEDFRAMEWORDS, PRINTEDWORDS};
use listing_scanner::Counts;
use refusals::Refusal;
use text_scanner::closed;

// What a listing states: how many words its entries and its frames have, and its delay. These words, and the counts of
// its passed lines, stand in what the caller lends.
#[derive(Clone, Copy)]
pub struct Stated {
    pub words: usize,
    pub framewords: usize,
    pub delay: u32,
}

// Reads the lines of a listing: its entries and its frames as words, and the counts of its passed lines. None where the
// listing is not of its form.
fn read_lines(
    text: &[u8],
    counts: Counts,
    table: &mut [u32; PRINTEDWORDS],
    frames: &mut [u32; PRINTEDFRAMEWORDS],
    passed: &mut [u32; NODES],
) -> Option<Stated>
    requires { Few counts × (length table.old ≡ PRINTEDWORDS) × (length frames.old ≡ PRINTEDFRAMEWORDS)
        × (length passed.old ≡ NODES) }
    ensures { LinesRead text.now counts table.old frames.old
        passed.old table.new frames.new passed.new result }
{
    let (delay, i) = closed(text, 0, b"(delay ", b"\n")?;
    let j = read_passed(text, i, counts.slots, passed)?;
    let (entries, k) = read_entries(text, j, counts, table)?;
    let (used, end) = read_frames(text, k, frames)?;
    if end < text.len() {
        return None;
    }
    Some(Stated {
        words: 5 * entries,
        framewords: 3 * used,
        delay,
    })
}

// Reads a listing text of any bytes for a plan of so many slots, processes, edges and conditions: the words of its
// entries go to the front of `table`, those of its frames to the front of `frames`, which have room for 3,000 entries
// and 2,000 frames, and the counts of its nodes to the front of `passed`; or refusal 21, which leaves all of them
// unchanged.
// The lines are read into words of its own first, which are of ones, since these are stored by fewer instructions than
// zeros are (docs/PERFORMANCE.md).
pub fn read_listing(
    text: &[u8],
    slots: usize,
    processes: usize,
    edges: usize,
    conditions: usize,
    table: &mut [u32],
    frames: &mut [u32],
    passed: &mut [u32; NODES],
) -> Result<Stated, Refusal>
    requires fact_1 { SomePlan slots processes edges conditions }
    requires fact_2 { (PRINTEDWORDS ≤ length table.old) × (PRINTEDFRAMEWORDS ≤ length frames.old) }
    ensures { (p : Lines) → plan_refusal p ≡ nothing → Counted p slots processes edges conditions →
        ReadsListing p text.now result table.old frames.old passed.old
        table.new frames.new passed.new }
{
    let counts = Counts {
        slots: slots as u32,
        processes: processes as u32,
        edges: edges as u32,
        conditions: conditions as u32,
    };
    let mut entrywords = [1u32; PRINTEDWORDS];
    let mut framewords = [1u32; PRINTEDFRAMEWORDS];
    let mut counted = [1u32; NODES];
    let Some(s) = read_lines(text, counts, &mut entrywords, &mut framewords, &mut counted) else {
        return Err(Refusal::ListingText);
    };
    copy_part(&entrywords, 0, s.words, table);
    copy_part(&framewords, 0, s.framewords, frames);
    copy_part(&counted, 0, slots, passed);
    Ok(s)
}
