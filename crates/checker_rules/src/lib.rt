// Refusal 13 of an entry, and refusals 15, 17 and 18 of a combination's met entries.
// Document 01: "In some combination a met column uses a value not known by its tick."
#![tactic(auto)]

mod entry_form;
mod overlaps;
mod slot_beginnings;
mod unknown_values;

pub use entry_form::ill_formed;
pub use overlaps::overlap;
pub use slot_beginnings::off_slot;
pub use unknown_values::uses_unknown;
