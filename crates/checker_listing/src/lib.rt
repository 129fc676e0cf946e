// Checking a listing text for a plan in which refusals 2 to 9 find nothing: 21 of its form, 12 to 20 of its table and
// its delay, then 22 of its frames and its pass-over counts. It goes by the listing reader's contract alone.
// Document 02, point 2: "22: its frame lines are not those its entries give, or its passed line is not the plan's
// pass-over count, tried after 20"; point 3: "one line for each node"
#![tactic(auto)]

mod counts;
mod frame_ticks;
mod frames;
mod listed;
mod stated;

pub use listed::check_listed;
