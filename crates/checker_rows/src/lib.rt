// The rows that are due in a combination, and the entries of a table that it meets, in arrays by row; refusal 14.
// Document 01: "In some combination a due row (active process, carrying edge between nodes, active decider's broadcast)
// has not exactly one entry whose column is met, or another row has one."
#![tactic(auto)]

mod due;
mod met;

pub use due::due_rows;
pub use met::{MetRows, met_rows, miscounts};
