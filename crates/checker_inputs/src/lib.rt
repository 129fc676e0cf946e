// Refusal 16 of a combination's met entries.
// Document 01: "A process starts before a carrying edge has delivered, or an item before its sender's end."
#![tactic(auto)]

mod early_starts;
mod undelivered;

pub use early_starts::too_early;
