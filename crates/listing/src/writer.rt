// The listing: a table and a frame list, or a refusal, as the lines that the planning program prints, in lent bytes.
// Where fewer bytes are lent than such a listing may need it is counted first, with no store, so that refusal 10 leaves
// the bytes unchanged; then it is stored.
ghost use Rattle.std.specs.Prelude.{◌≡◌, ◌≤◌, length};
ghost use Rattle.limits.specs.Limits.{NODES};
ghost use Rattle.model.specs.Listing.{refused_line, words_listing};
ghost use Rattle.model.specs.Text.{bytes_after};
ghost use Rattle.plan.specs.Memory.{lines};
ghost use Rattle.refusals.specs.Numbers.{numbered};
ghost use Rattle.text_lines.specs.Answer.{answer_of};
ghost use Rattle.text_lines.specs.Line.{put_on};
ghost use Rattle.text_lines.specs.Put.{Put};
ghost use Rattle.listing_bytes.specs.Fits.{Fits};
ghost use Rattle.listing_count.specs.Parts.{totals_of, entries_text, frames_text, listing_of};
ghost use Rattle.listing.specs.Answer.{written_of};

use crate::frames::{put_frames, put_totals};
use limits::NODES;
use listing_bytes::put_word;
use listing_count::{Counts, digits, exceeds};
use listing_entries::put_entries;
use plan::Plan;
use refusals::Refusal;
use text_lines::{Writer, filled, start};

// The line writer once it has the line of the delay and the passed lines.
fn totals(w: &mut Writer<'_>, delay: u32, passed: &[u32])
    requires { Fits w.old.out.now w.old.at (totals_of delay passed.now) × (length passed.now ≤ NODES) }
    ensures { w.new ≡ put_on w.old (totals_of delay passed.now) }
{
    let at = w.at;
    w.at = put_totals(&mut *w.out, at, delay, passed);
}

// The line writer once it has the lines of a table.
fn entries(w: &mut Writer<'_>, counts: Counts, table: &[u32])
    requires { Fits w.old.out.now w.old.at
        (entries_text counts.processes counts.edges counts.conditions table.now) }
    ensures { w.new ≡ put_on w.old (entries_text counts.processes counts.edges counts.conditions table.now) }
{
    let at = w.at;
    w.at = put_entries(&mut *w.out, at, counts, table);
}

// The line writer once it has the lines of a frame list.
fn frames(w: &mut Writer<'_>, list: &[u32])
    requires { Fits w.old.out.now w.old.at (frames_text list.now) }
    ensures { w.new ≡ put_on w.old (frames_text list.now) }
{
    let at = w.at;
    w.at = put_frames(&mut *w.out, at, list);
}

// Stores a listing that the lent bytes have room for, through the line writer.
fn put_listing<'a>(
    out: &mut [u8],
    counts: Counts,
    delay: u32,
    passed: &'a [u32],
    table: &'a [u32],
    list: &'a [u32],
) -> usize
    requires { Fits out.old 0 (listing_of counts.processes counts.edges counts.conditions delay passed.now table.now
        list.now) × (length passed.now ≤ NODES) }
    ensures { Put out.old out.new 0 result (listing_of counts.processes counts.edges counts.conditions delay
        passed.now table.now list.now) }
{
    let mut w = start(out, 0);
    totals(&mut w, delay, passed);
    entries(&mut w, counts, table);
    frames(&mut w, list);
    filled(w)
}

// Stores the line of a refusal that the lent bytes have room for: how many bytes were stored.
pub fn put_refusal(out: &mut [u8], number: u32) -> usize
    requires { Fits out.old 0 (refused_line number) }
    ensures { Put out.old out.new 0 result (refused_line number) }
{
    let end = text_lines::put_labelled(out, 0, b"(refused ", number);
    put_word(out, end, b")\n")
}

// Writes the listing of a table and a frame list to the front of the lent bytes, where the pass-over counts of the
// plan's nodes stand at the front of as many words as a plan may have nodes: a part of an array that is lent is taken
// where it is lent as a slice.
fn write_counted<'a>(
    p: Plan,
    delay: u32,
    passed: &'a [u32],
    table: &'a [u32],
    frames: &'a [u32],
    out: &mut [u8],
) -> Result<usize, Refusal>
    requires { length passed.now ≡ NODES }
    ensures answer { numbered result ≡ answer_of (written_of (length out.old)
        (words_listing (lines p) delay passed.now table.now frames.now)) }
    ensures bytes { out.new ≡ bytes_after (written_of (length out.old)
        (words_listing (lines p) delay passed.now table.now frames.now))
        out.old }
{
    let nodes = p.slots.min(NODES);
    let passed = &passed[..nodes];
    let counts = Counts {
        processes: p.processes,
        edges: p.edges,
        conditions: p.conditions,
    };
    if exceeds(out.len(), counts, delay, passed, table, frames) {
        return Err(Refusal::LentRoom);
    }
    Ok(put_listing(out, counts, delay, passed, table, frames))
}

// Writes the listing of a table and a frame list, for a plan, a worst delay and the pass-over counts of the plan's
// nodes, which stand at the front of `passed`, to the front of the lent bytes: how many bytes were written.
// Refusal 10 leaves the bytes unchanged. A row that the plan lacks has no line, and stray last words are ignored.
pub fn write_listing<'a>(
    p: Plan,
    delay: u32,
    passed: &'a [u32; NODES],
    table: &'a [u32],
    frames: &'a [u32],
    out: &mut [u8],
) -> Result<usize, Refusal>
    ensures answer { numbered result ≡ answer_of (written_of (length out.old)
        (words_listing (lines p) delay passed.now table.now frames.now)) }
    ensures bytes { out.new ≡ bytes_after (written_of (length out.old)
        (words_listing (lines p) delay passed.now table.now frames.now))
        out.old }
{
    write_counted(p, delay, passed, table, frames, out)
}

// Writes the line of a refusal to the front of the lent bytes: how many bytes were written. Refusal 10 leaves the bytes
// unchanged.
pub fn write_refusal(number: u32, out: &mut [u8]) -> Result<usize, Refusal>
    ensures answer { numbered result ≡ answer_of (written_of (length out.old) (refused_line number)) }
    ensures bytes { out.new ≡ bytes_after (written_of (length out.old) (refused_line number))
        out.old }
{
    if out.len() < 11 + digits(number) {
        return Err(Refusal::LentRoom);
    }
    Ok(put_refusal(out, number))
}
