// The kernel lookup and the row query over a table lent as bytes.
// Document 01: "stray last words or bytes are ignored"
#![tactic(auto)]

mod rows;
mod search;
mod table;
mod text;

pub use rows::{row_length, row_start};
pub use text::lookup_text;
