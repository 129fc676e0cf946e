// What a combination takes over from an earlier one that differs from it in one value, up to the clock at which that
// value arrives; and the plans of the combinations stored side by side.
// Document 01: "on arrival the value is known at every node, the deciding one included, and not before"
#![tactic(auto)]

mod parts;
mod prefix;
mod stored_plans;

pub use prefix::{Source, shared_prefix};
pub use stored_plans::{add_counts, store_notes, store_rows};
