// What stands at a position of a text: digits, words and numbers; the ends of a plan's lines, and its whole lines; each
// equal to the grammar's function there.
// Document 01: "Line kinds stand in the order of this example"
#![tactic(auto)]

mod digits;
mod line_ends;
mod lines;
mod words;

pub use lines::{condition, edge, plan_line, process, slot};
pub use words::{closed, field, number_to, word};
