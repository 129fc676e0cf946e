// The table checker over a table lent as bytes of any length, for a plan lent as its text.
// Document 01: "Planner, checker, lookup and plan writer retry 2 to 9 on the plan they are handed."
#![tactic(auto)]

mod many_entries;
mod table;
mod text;

pub use text::{check_text, checked};
