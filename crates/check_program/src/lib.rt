// A plan text and a listing text checked together, and what the program that checks a printed table prints for an input
// of both.
// Document 02, point 2: "A program reads a plan up to the first empty line, then a listing as printed in document 01,
// and prints `(accepted)` or the refusal."
#![tactic(auto)]

mod printed;
mod texts;

pub use printed::print_check;
pub use texts::check_texts;
