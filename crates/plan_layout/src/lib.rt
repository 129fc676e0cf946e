// All that planning and checking read of a plan, laid out in one array: by process, by edge, by row and by node; and
// which `when`s a combination does not meet.
// Document 01: "Rows: processes, then edges, then conditions."
#![tactic(auto)]

mod index;
mod index_words;
mod laying;
mod line_arrays;
mod node_arrays;
mod row_arrays;
mod unmet_whens;

pub use index::of_plan;
pub use unmet_whens::find_unmet;
