// The fixed orders of planning, worked out once for a plan: urgencies, processes and messages by falling weight, and
// numbers in groups by a key.
// Document 01: "Urgency of a process: its ticks plus the greatest urgency among those its edges lead to, 0 if none."
#![tactic(auto)]

mod by_key;
mod by_weight;
mod orders;
mod urgency;

pub use orders::{Orders, fixed_orders};
