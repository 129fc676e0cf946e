// What stands at a position of a listing text: the passed lines, columns, the lines of entries and the lines of frames,
// each equal to the grammar's function there.
// Document 02, point 2: "a listing as printed in document 01"
#![tactic(auto)]

mod columns;
mod entries;
mod frames;
mod passed;

pub use entries::{Counts, Entry, entry_line};
pub use frames::{Frame, frame_line};
pub use passed::count_line;
