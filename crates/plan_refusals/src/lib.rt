// Refusals 2 to 9 on any plan in memory, one function to a sentence; `refuse` tries them in their order.
// Document 01: "Each sentence is tried over the whole input before the next."
#![tactic(auto)]

mod lines;
mod sentences;

pub use sentences::refuse;
