// What each node has to send and when: its pending broadcasts as a mask, its messages that wait in the order of the
// queue, when its slot next takes an item, for which nodes something changed, and when the next event is.
// specs/Packing.antt says what a slot takes.
// Document 01: "At its beginning a slot takes items of its node ready by that tick."
#![tactic(auto)]

mod broadcasts;
mod clocks;
mod messages;
mod next_sends;

pub use broadcasts::{Taken, pending_broadcasts, take_broadcasts};
pub use clocks::{changed_nodes, changes, ends_after, next_event, sending_node, sooner};
pub use next_sends::{current_round, next_round, update_next_sends};
