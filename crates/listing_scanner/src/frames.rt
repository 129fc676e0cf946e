// The lines of frames.
ghost use Rattle.std.specs.Prelude.{◌≤◌, length, drop};
ghost use Rattle.listing_grammar.specs.Parse.{frame_at};
ghost use Rattle.text_scanner.specs.Place.{Scanned};
ghost use Rattle.listing_scanner.specs.Lines.{frame};

use crate::entries::numbered;
use text_scanner::{closed, field};

// A frame as a line says it: tick, node, last used byte counted from 1.
#[derive(Clone, Copy)]
pub struct Frame {
    pub tick: u32,
    pub node: u32,
    pub used: u32,
}

// The line of a frame at `at`, and the position behind it.
pub fn frame_line(text: &[u8], at: usize) -> Option<(Frame, usize)>
    requires { at ≤ length text.now }
    ensures { Scanned text.now (frame result) (frame_at (drop at text.now)) }
{
    let (tick, i) = numbered(text, at, b"(frame ")?;
    let (node, j) = field(text, i, b"(node ")?;
    let (used, end) = closed(text, j, b" (bytes ", b")\n")?;
    Some((Frame { tick, node, used }, end))
}
