// The lines of the delay, of the pass-over counts and of a frame list stored from a place on in lent bytes that have
// room for them.
ghost use Rattle.std.specs.Prelude.{◌≤◌, length};
ghost use Rattle.limits.specs.Limits.{NODES};
ghost use Rattle.text_lines.specs.Put.{Put};
ghost use Rattle.listing_bytes.specs.Fits.{Fits};
ghost use Rattle.listing_count.specs.Parts.{passed_of, passed_text, totals_of, frame_of, frames_text};

use listing_bytes::{put_labelled, put_word};

// Stores the passed line of a node.
fn put_count(out: &mut [u8], at: usize, node: u32, count: u32) -> usize
    requires { Fits out.old at (passed_of node count) }
    ensures { Put out.old out.new at result (passed_of node count) }
{
    let first = put_labelled(out, at, b"(passed (node ", node);
    let second = put_labelled(out, first, b") ", count);
    put_word(out, second, b")\n")
}

// Stores the passed lines of the nodes that these are the counts of, from node 0 on.
fn put_counts(out: &mut [u8], at: usize, passed: &[u32]) -> usize
    requires { Fits out.old at (passed_text 0 passed.now) × (length passed.now ≤ NODES) }
    ensures { Put out.old out.new at result (passed_text 0 passed.now) }
{
    let mut end = at;
    for (i, &count) in passed.iter().enumerate() {
        end = put_count(out, end, i as u32, count);
    }
    end
}

// Stores the line of the delay and the passed lines.
pub(crate) fn put_totals(out: &mut [u8], at: usize, delay: u32, passed: &[u32]) -> usize
    requires { Fits out.old at (totals_of delay passed.now) × (length passed.now ≤ NODES) }
    ensures { Put out.old out.new at result (totals_of delay passed.now) }
{
    let first = put_labelled(out, at, b"(delay ", delay);
    let second = put_word(out, first, b")\n");
    put_counts(out, second, passed)
}

// Stores the line of a frame.
fn put_frame(out: &mut [u8], at: usize, tick: u32, node: u32, used: u32) -> usize
    requires { Fits out.old at (frame_of tick node used) }
    ensures { Put out.old out.new at result (frame_of tick node used) }
{
    let first = put_labelled(out, at, b"(frame ", tick);
    let second = put_labelled(out, first, b" (node ", node);
    let third = put_labelled(out, second, b") (bytes ", used);
    put_word(out, third, b"))\n")
}

// Stores the lines of a frame list.
pub(crate) fn put_frames(out: &mut [u8], at: usize, frames: &[u32]) -> usize
    requires { Fits out.old at (frames_text frames.now) }
    ensures { Put out.old out.new at result (frames_text frames.now) }
{
    let mut end = at;
    for f in frames.chunks_exact(3) {
        end = put_frame(out, end, f[0], f[1], f[2]);
    }
    end
}
