// The entries of a start table, as numbers in ascending order row by row, and their words.
// Document 01: "Equal entries stand once; order is row, tick, known, values."
#![tactic(auto)]

mod ascending;
mod entries;
mod entry_words;

pub use ascending::put;
pub use entries::all_entries;
pub use entry_words::write;
