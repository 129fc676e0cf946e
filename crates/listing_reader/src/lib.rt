// The listing reader: what a listing text states, in words that the caller lends, or refusal 21, which leaves every
// lent word as it was. It goes by how many slots, processes, edges and conditions the plan has.
// Document 02, point 2: "The checker uses the text reader only through what the reader's contract states."
#![tactic(auto)]

mod entries;
mod frames;
mod passed;
mod reader;

pub use reader::{Stated, read_listing};
