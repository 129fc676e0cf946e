// The plan writer: each line of the plan text, runs of lines, and the whole text in lent bytes, with refusals 2 to 10.
// Document 01: "The planner's entries need more words, or a written text more bytes, than lent."
#![tactic(auto)]

mod edges;
mod lines;
mod plan_text;
mod runs;
mod writer;

pub use writer::write_plan;
