// What planning keeps by node from event to event, in one array of numbers: each field has its place there, and
// functions that read and store it. specs/Nodes.antt has the same fields as a record.
// Document 01: "Each free node starts its ready process of highest urgency, ties to the lower number."
#![tactic(auto)]

ghost use Rattle.std.specs.Prelude.{◌≡◌, ◌<◌, get_or};
ghost use Rattle.limits.specs.Limits.{EDGES, NODES, NOTED};
ghost use Rattle.planner_nodes.specs.Nodes.{nodes_of, no_nodes, put_busy, put_passed, put_nextsend};
ghost use Rattle.planner_nodes.specs.Nodes.{put_lastarrival, put_waitend, put_noted, put_wait};

use arrays::wide;
use limits::{EDGES, NODES, NOTED};

// where each field stands in the array
pub const BUSY_AT: usize = 0;

pub const PASSED_AT: usize = BUSY_AT + NODES;

pub const NEXTSEND_AT: usize = PASSED_AT + NODES;

pub const LASTARRIVAL_AT: usize = NEXTSEND_AT + NODES;

pub const WAITEND_AT: usize = LASTARRIVAL_AT + NODES;

pub const NOTED_AT: usize = WAITEND_AT + NODES;

pub const WAIT_AT: usize = NOTED_AT + NOTED;

// How many numbers there are.
pub const WORDS: usize = WAIT_AT + EDGES;

// What planning keeps of a combination by node. It is one array and no struct of arrays: fixed memory is lent as one
// array with named offsets, and the contracts above speak of its fields by `nodes_of`. Each field has a store, and
// most a reader, which name it in their contracts; clocks are also compared at their offset, and counts noted as a run.
pub type Nodes = [u32; WORDS];

// The clock at which the last process of node n ends, 0 if it has started none.
pub fn busy_of(nodes: &Nodes, n: usize) -> u32
    requires { n < NODES }
    ensures { result ≡ get_or (nodes_of nodes.now).busy n 0 }
{
    nodes[BUSY_AT + n]
}

// In how many slots of node n a ready item was not taken.
pub fn passed_of(nodes: &Nodes, n: usize) -> u32
    requires { n < NODES }
    ensures { result ≡ get_or (nodes_of nodes.now).passed n 0 }
{
    nodes[PASSED_AT + n]
}

// The clock at which the slot of node n next takes an item, `NEVER` where it has none pending.
pub fn nextsend_of(nodes: &Nodes, n: usize) -> u32
    requires { n < NODES }
    ensures { result ≡ get_or (nodes_of nodes.now).nextsend n 0 }
{
    nodes[NEXTSEND_AT + n]
}

// The place behind the messages that wait at node n.
pub fn waitend_of(nodes: &Nodes, n: usize) -> usize
    requires { n < NODES }
    ensures { result ≡ get_or (nodes_of nodes.now).waitend n 0 }
{
    wide(nodes[WAITEND_AT + n])
}

// The edge at place j of the messages that wait, those of a node from its place in the queue on.
pub fn wait_of(nodes: &Nodes, j: usize) -> u32
    requires { j < EDGES }
    ensures { result ≡ get_or (nodes_of nodes.now).wait j 0 }
{
    nodes[WAIT_AT + j]
}

// Stores the clock at which the last process of node n ends.
pub fn put_busy(nodes: &mut Nodes, n: usize, x: u32)
    requires { n < NODES }
    ensures { nodes_of nodes.new ≡ put_busy n x (nodes_of nodes.old) }
{
    nodes[BUSY_AT + n] = x;
}

// Stores in how many slots of node n a ready item was not taken.
pub fn put_passed(nodes: &mut Nodes, n: usize, x: u32)
    requires { n < NODES }
    ensures { nodes_of nodes.new ≡ put_passed n x (nodes_of nodes.old) }
{
    nodes[PASSED_AT + n] = x;
}

// Stores the clock at which the slot of node n next takes an item.
pub fn put_nextsend(nodes: &mut Nodes, n: usize, x: u32)
    requires { n < NODES }
    ensures { nodes_of nodes.new ≡ put_nextsend n x (nodes_of nodes.old) }
{
    nodes[NEXTSEND_AT + n] = x;
}

// Stores the last clock at which an item arrives at node n.
pub fn put_lastarrival(nodes: &mut Nodes, n: usize, x: u32)
    requires { n < NODES }
    ensures { nodes_of nodes.new ≡ put_lastarrival n x (nodes_of nodes.old) }
{
    nodes[LASTARRIVAL_AT + n] = x;
}

// Stores the place behind the messages that wait at node n.
pub fn put_waitend(nodes: &mut Nodes, n: usize, x: u32)
    requires { n < NODES }
    ensures { nodes_of nodes.new ≡ put_waitend n x (nodes_of nodes.old) }
{
    nodes[WAITEND_AT + n] = x;
}

// Stores the count of passed at place i, condition times 8 plus node, as the value of the condition became known.
pub fn put_noted(nodes: &mut Nodes, i: usize, x: u32)
    requires { i < NOTED }
    ensures { nodes_of nodes.new ≡ put_noted i x (nodes_of nodes.old) }
{
    nodes[NOTED_AT + i] = x;
}

// Stores the edge at place j of the messages that wait.
pub fn put_wait(nodes: &mut Nodes, j: usize, x: u32)
    requires { j < EDGES }
    ensures { nodes_of nodes.new ≡ put_wait j x (nodes_of nodes.old) }
{
    nodes[WAIT_AT + j] = x;
}

// Nothing has started, been counted or noted, and nothing waits.
pub fn empty_nodes() -> Nodes
    ensures { nodes_of result ≡ no_nodes }
{
    [0u32; WORDS]
}
