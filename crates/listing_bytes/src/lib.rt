// Words and numbers of a listing stored with no test of the room, once it is known that they fit.
// Document 01: "Numbers, spaces and line ends are as in a plan."
#![tactic(auto)]

mod numbers;
mod words;

pub use numbers::{put_digit, put_digits, put_labelled};
pub use words::{put_long, put_word};
