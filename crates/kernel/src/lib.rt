// The kernel lookup over a table's words: the column test, the nodes of a plan's rows, the test of an entry and the
// search from an entry on, and the lookup with the plan's refusals.
// Document 01: "It gives the number of the first entry, from there on, of that node (an edge or broadcast counts to its
// sender) at that tick whose known bits are all heard, with the heard values at those bits, or none."
#![tactic(auto)]

mod column;
mod nodes;
mod search;
mod table;

pub use nodes::{RowNodes, row_nodes};
pub use search::{entry_fits, first_entry};
pub use table::lookup;
