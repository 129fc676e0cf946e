// Where each field of a plan index stands in its array.
use limits::{CONDITIONS, EDGES, NODES, PROCESSES, ROWS, STARTS};

pub const PROCESSES_AT: usize = 0;

pub const EDGES_AT: usize = PROCESSES_AT + 1;

pub const CONDITIONS_AT: usize = EDGES_AT + 1;

pub const SLOTS_AT: usize = CONDITIONS_AT + 1;

pub const CONDITIONROW_AT: usize = SLOTS_AT + 1;

pub const ROWS_AT: usize = CONDITIONROW_AT + 1;

pub const ROUND_AT: usize = ROWS_AT + 1;

pub const RECIPROCAL_AT: usize = ROUND_AT + 1;

pub const NODE_AT: usize = RECIPROCAL_AT + 1;

pub const TICKS_AT: usize = NODE_AT + PROCESSES;

pub const ASANY_AT: usize = TICKS_AT + PROCESSES;

pub const FROM_AT: usize = ASANY_AT + PROCESSES;

pub const KNOWNBY_AT: usize = FROM_AT + EDGES;

pub const REMOTE_AT: usize = KNOWNBY_AT + EDGES;

pub const BYTES_AT: usize = REMOTE_AT + EDGES;

pub const KIND_AT: usize = BYTES_AT + EDGES;

pub const CONDITION_AT: usize = KIND_AT + EDGES;

pub const DECIDER_AT: usize = CONDITION_AT + EDGES;

pub const INTOFIRST_AT: usize = DECIDER_AT + CONDITIONS;

pub const INTO_AT: usize = INTOFIRST_AT + STARTS;

pub const DISPATCHFIRST_AT: usize = INTO_AT + EDGES;

pub const DISPATCH_AT: usize = DISPATCHFIRST_AT + STARTS;

pub const QUEUEFIRST_AT: usize = DISPATCH_AT + EDGES;

pub const QUEUE_AT: usize = QUEUEFIRST_AT + STARTS;

pub const OFFSET_AT: usize = QUEUE_AT + EDGES;

pub const LASTS_AT: usize = OFFSET_AT + NODES;

pub const ROOMS_AT: usize = LASTS_AT + NODES;

pub const DECIDES_AT: usize = ROOMS_AT + NODES;

pub const SPAN_AT: usize = DECIDES_AT + NODES;

pub const SENDER_AT: usize = SPAN_AT + ROWS;

pub const SIZE_AT: usize = SENDER_AT + ROWS;

// How many numbers a plan index has.
pub const WORDS: usize = SIZE_AT + ROWS;

// A plan laid out for planning and checking.
// (One array, not a struct of arrays: the contracts of the crates above speak of its fields by `laid`.)
pub type Index = [u32; WORDS];
