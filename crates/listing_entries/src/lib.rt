// The entry lines of a listing: a column's conditions, how a line begins and ends, and the lines of a table row by row.
// Document 01: "start, send and tell carry the number of a process, edge or condition that the plan has; conditions in
// a `when` are the plan's too and ascend strictly."
#![tactic(auto)]

mod column;
mod lines;
mod rows;

pub use rows::put_entries;
