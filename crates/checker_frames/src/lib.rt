// Refusal 19 of a combination's met entries.
// Document 01: "Two items of a frame share a byte, or one passes the slot's last byte."
#![tactic(auto)]

mod item_pairs;
mod shared_bytes;

pub use shared_bytes::share_byte;
