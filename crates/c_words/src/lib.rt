// Words of 32 bits in bytes, the lowest byte first, read and written; and the number in which C is answered.
// Document 01: "The firmware calls the lookup from C with numbers and byte slices, the plan as its text, words
// little-endian."
#![tactic(auto)]

mod numbers;
mod words;
mod words_out;

pub use numbers::{answered, numbered, refused};
pub use words::{entry_of, entry_words, how_many, read_words, word_at};
pub use words_out::{put_some, put_words};
