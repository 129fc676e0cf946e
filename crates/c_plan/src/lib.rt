// A plan planned into lent bytes: the table, the frame list and the totals.
// Document 01: "A refusal yields its number only, and every lent buffer keeps its contents"
#![tactic(auto)]

mod stored;
mod table;

pub use table::put_plan;
