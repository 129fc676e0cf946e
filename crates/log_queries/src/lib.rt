// What can be read off a log in memory (arrays by row): what is ready, delivered, known and over, and which processes
// may still run; for planner and checker.
// Document 01: "An `all` process is ready when every edge into it has delivered."
#![tactic(auto)]

mod readiness;
mod row_ends;
mod runnable;

pub use readiness::{came, delivered, message_ready, ready};
pub use row_ends::{known, last_end};
pub use runnable::{may_run, update_may_run};
