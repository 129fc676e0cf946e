// The plan reader: runs of lines of one kind, the whole text with refusals 1 to 9, and where the plan of an input ends.
// Document 01: "The text exceeds 16,384 bytes or is not of the form above."
#![tactic(auto)]

mod line_runs;
mod parts;
mod reader;

pub use parts::plan_length;
pub use reader::read_plan;
