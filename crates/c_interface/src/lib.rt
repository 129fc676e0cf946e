// The functions that other software calls, over numbers and byte slices. include/riscadru.h says each contract in
// words.
// Document 01: "The firmware calls the lookup from C with numbers and byte slices"
#![tactic(auto)]

mod checking;
mod copying;
mod lookup;
mod planning;

pub use checking::{riscadru_check_listing, riscadru_check_table};
pub use copying::riscadru_copy_plan;
pub use lookup::{riscadru_lookup, riscadru_row_length, riscadru_row_start};
pub use planning::{riscadru_plan_listing, riscadru_plan_table};
