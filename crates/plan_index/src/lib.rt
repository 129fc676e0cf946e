// A plan laid out for planning and checking in one array of numbers: each field has its place there, and one function
// that reads it. specs/Index.antt has the same fields as a record.
// Document 01: "Rows: processes, then edges, then conditions."
#![tactic(auto)]

mod counts;
mod fields;
mod layout;

pub use counts::{
    conditionrow_of, conditions_of, edges_of, processes_of, reciprocal_of, round_of, rows_of,
    slots_of,
};
pub use fields::{
    asany_of, bytes_of, condition_of, decider_of, decides_of, dispatch_of, dispatchfirst_of,
    from_of, into_of, intofirst_of, kind_of, knownby_of, lasts_of, node_of, offset_of, queue_of,
    queuefirst_of, remote_of, rooms_of, sender_of, size_of, span_of, ticks_of,
};
pub use layout::{
    ASANY_AT, BYTES_AT, CONDITION_AT, CONDITIONROW_AT, CONDITIONS_AT, DECIDER_AT, DECIDES_AT,
    DISPATCH_AT, DISPATCHFIRST_AT, EDGES_AT, FROM_AT, INTO_AT, INTOFIRST_AT, Index, KIND_AT,
    KNOWNBY_AT, LASTS_AT, NODE_AT, OFFSET_AT, PROCESSES_AT, QUEUE_AT, QUEUEFIRST_AT, RECIPROCAL_AT,
    REMOTE_AT, ROOMS_AT, ROUND_AT, ROWS_AT, SENDER_AT, SIZE_AT, SLOTS_AT, SPAN_AT, TICKS_AT, WORDS,
};
use limits::{CONDITIONS, EDGES, NODES, PROCESSES, ROWS, STARTS};

// The fields of a plan index, each an array of its own: what contracts speak of, and what is laid out in one array.
#[derive(Clone, Copy)]
pub struct PlanIndex {
    // how many processes, edges, conditions and slots the plan has
    pub processes: usize,
    pub edges: usize,
    pub conditions: usize,
    pub slots: usize,
    // the row of condition 0, and how many rows there are: processes, then edges, then conditions
    pub conditionrow: usize,
    pub rows: usize,
    // by process: its node, its ticks, and 1 where it counts as `any`
    pub node: [u32; PROCESSES],
    pub ticks: [u32; PROCESSES],
    pub asany: [u32; PROCESSES],
    // by edge: the process that sends, the row that makes its `when` known, 0 where it stays on its node and else one
    // more than the node that receives, its bytes, the kind of its `when` (0 always, 1 true, 2 false) and the condition
    // that it names
    pub from: [u32; EDGES],
    pub knownby: [u32; EDGES],
    pub remote: [u32; EDGES],
    pub bytes: [u32; EDGES],
    pub kind: [u32; EDGES],
    pub condition: [u32; EDGES],
    // by condition: the process that decides it
    pub decider: [u32; CONDITIONS],
    // the edges into process i stand in `into` from place `intofirst[i]` up to place `intofirst[i + 1]`
    pub intofirst: [u32; STARTS],
    pub into: [u32; EDGES],
    // the processes of a node in dispatch order, and its messages in the order of the queue, laid out the same way by
    // node
    pub dispatchfirst: [u32; STARTS],
    pub dispatch: [u32; EDGES],
    pub queuefirst: [u32; STARTS],
    pub queue: [u32; EDGES],
    // the ticks of a round, their reciprocal and, by node, the ticks from a round's beginning to the node's slot, the
    // slot's ticks, its bytes, and the conditions that the node's processes decide, as a mask
    pub round: u32,
    pub reciprocal: u32,
    pub offset: [u32; NODES],
    pub lasts: [u32; NODES],
    pub rooms: [u32; NODES],
    pub decides: [u32; NODES],
    // by row: the ticks that it lasts, the node that it belongs to, and its bytes on the bus
    pub span: [u32; ROWS],
    pub sender: [u32; ROWS],
    pub size: [u32; ROWS],
}
