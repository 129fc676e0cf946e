// The listing of a table and a frame list, or of a refusal, in lent bytes.
// Document 01: "A refusal prints `(refused 9)`, with its number, alone."
#![tactic(auto)]

mod frames;
mod writer;

pub use writer::{put_refusal, write_listing, write_refusal};
