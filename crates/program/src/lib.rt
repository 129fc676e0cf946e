// The listing of a text's plan in lent bytes, or the first refusal that applies; and what the planning program prints
// for a text, the listing or the line of that refusal.
// Document 01: "For S the planning program, reading standard input and lending 3,000 entries and 2,000 frames, prints
// exactly"
#![tactic(auto)]

mod listed;
mod printed;

pub use listed::list_plan;
pub use printed::print_all;
