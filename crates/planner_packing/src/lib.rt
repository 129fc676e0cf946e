// What a slot takes as it begins: the broadcasts, then the messages that wait by the packing scan; what it leaves, and
// at which nodes items arrive.
// Document 01: "An item that does not fit the bytes left is passed over and the next is tried. Items lie side by side
// from byte 0."
#![tactic(auto)]

mod packing;
mod slot;

pub use slot::{Ends, send_slot};
