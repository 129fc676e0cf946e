// Checking any words and any stated delay for a plan in which refusals 2 to 9 find nothing: refusals 12 to 20.
// Document 01: "A table is sound, for a plan in which 2 to 9 find nothing and a stated delay, when 12 to 20 find
// nothing."
#![tactic(auto)]

mod combinations;
mod first_refusal;
mod table;
mod verdict;

pub use table::check_words;
