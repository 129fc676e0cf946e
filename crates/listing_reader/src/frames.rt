// The lines of frames, one after another, read into words.
ghost use Rattle.std.specs.Prelude.{◌≡◌, [], ◌∷◌, ◌+◌, ◌≤◌, length};
ghost use Rattle.std.proofs.lemmas.List.Edits.{sets};
ghost use Rattle.limits.specs.Limits.{PRINTEDFRAMEWORDS};
ghost use Rattle.model.specs.Table.{frame_words};
ghost use Rattle.listing_scanner.specs.Lines.{frame_of};
ghost use Rattle.listing_reader.specs.Runs.{FramesRead};

use limits::{PRINTEDFRAMES, PRINTEDFRAMEWORDS};
use listing_scanner::{Frame, frame_line};

// Stores the three words of a frame from place `at` on.
fn put_frame(f: Frame, frames: &mut [u32; PRINTEDFRAMEWORDS], at: usize)
    requires { (at + 3 ≤ PRINTEDFRAMEWORDS) × (length frames.old ≡ PRINTEDFRAMEWORDS) }
    ensures { frames.new ≡ sets frames.old at (frame_words (frame_of f ∷ [])) }
{
    frames[at] = f.tick;
    frames[at + 1] = f.node;
    frames[at + 2] = f.used;
}

// Reads the lines of frames from `at` on as words: how many there are, and the position behind them. The listing is not
// of its form where there are more than 2,000.
pub(crate) fn read_frames(
    text: &[u8],
    at: usize,
    frames: &mut [u32; PRINTEDFRAMEWORDS],
) -> Option<(usize, usize)>
    requires { (at ≤ length text.now) × (length frames.old ≡ PRINTEDFRAMEWORDS) }
    ensures { FramesRead text.now at frames.old frames.new result }
{
    let mut next = at;
    let mut count: usize = 0;
    while let Some((f, i)) = frame_line(text, next) {
        if PRINTEDFRAMES <= count {
            return None;
        }
        put_frame(f, frames, 3 * count);
        count += 1;
        next = i;
    }
    Some((count, next))
}
