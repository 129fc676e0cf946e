// The frame list, collected from the entries of the items, and table and frame list written where the lent words
// suffice.
// Document 01: "The frame list has three words for each slot occurrence used in any combination: tick, node, greatest
// last used byte counted from 1; ascending ticks."
#![tactic(auto)]

mod both;
mod frames;

pub use both::write_both;
pub use frames::collect;
