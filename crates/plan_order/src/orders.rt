// The fixed orders of planning, worked out once for a plan: the edges into each process, the processes of each node in
// dispatch order, and the messages of each node in the order of the queue.
ghost use Rattle.std.specs.Prelude.{◌≡◌, ◌≤◌, length};
ghost use Rattle.limits.specs.Limits.{PROCESSES, EDGES};
ghost use Rattle.lists.specs.Lists.{fill};
ghost use Rattle.model.specs.Refusals.{nothing, plan_refusal};
ghost use Rattle.plan.specs.Memory.{lines};
ghost use Rattle.plan.specs.Numbers.{node_at, from_at, to_at};
ghost use Rattle.plan.specs.Tests.{at};
ghost use Rattle.plan_order.specs.Weights.{weights_of, sender_key};
ghost use Rattle.plan_order.specs.Orders.{orders_of};

use crate::by_key::in_groups;
use crate::by_weight::number_at;
use crate::urgency::urgencies;
use arrays::zeros;
use limits::{EDGES, NONODE, PROCESSES, STARTS};
use plan::{Edge, Pick, Plan, Process};

// The edges into process i stand in `into` from place `intofirst[i]` up to place `intofirst[i + 1]`, the processes of a
// node in dispatch order in `dispatch` from `dispatchfirst`, and the messages of a node in the order of the queue in
// `queue` from `queuefirst`. Behind the last of each stand zeros.
#[derive(Clone, Copy)]
pub struct Orders {
    pub intofirst: [u32; STARTS],
    pub into: [u32; EDGES],
    pub dispatchfirst: [u32; STARTS],
    pub dispatch: [u32; EDGES],
    pub queuefirst: [u32; STARTS],
    pub queue: [u32; EDGES],
}

// What the pick goes by: the urgencies, or for pick number nothing, which leaves the number.
fn weights(pick: Pick, urgency: [u32; PROCESSES]) -> [u32; PROCESSES]
    ensures { result ≡ weights_of pick urgency }
{
    match pick {
        Pick::Urgency => urgency,
        Pick::Number => zeros(),
    }
}

// The node of each process.
fn nodes(processes: &[Process]) -> [u32; PROCESSES]
    requires { length processes.now ≤ PROCESSES }
    ensures { result ≡ fill PROCESSES (node_at processes.now) (length processes.now) }
{
    let mut node = zeros::<PROCESSES>();
    for (i, q) in processes.iter().enumerate() {
        node[i] = q.node;
    }
    node
}

// The process that each edge leads to.
fn receivers(edges: &[Edge]) -> [u32; EDGES]
    requires { length edges.now ≤ EDGES }
    ensures { result ≡ fill EDGES (to_at edges.now) (length edges.now) }
{
    let mut to = zeros::<EDGES>();
    for (k, e) in edges.iter().enumerate() {
        to[k] = e.to;
    }
    to
}

// The weight of each edge is that of the process it leads to.
fn receiver_weights(weight: &[u32], edges: &[Edge]) -> [u32; EDGES]
    requires { length edges.now ≤ EDGES }
    ensures { result ≡ fill EDGES (λ e. at weight.now (to_at edges.now e)) (length edges.now) }
{
    let mut w = zeros::<EDGES>();
    for (k, e) in edges.iter().enumerate() {
        w[k] = number_at(weight, e.to);
    }
    w
}

// The sending node of each edge between nodes; of a local edge 8, which is no node.
fn sender_keys(node: &[u32], edges: &[Edge]) -> [u32; EDGES]
    requires { length edges.now ≤ EDGES }
    ensures { result ≡ fill EDGES (λ e. sender_key (at node.now (from_at edges.now e))
        (at node.now (to_at edges.now e))) (length edges.now) }
{
    let mut key = zeros::<EDGES>();
    for (k, e) in edges.iter().enumerate() {
        key[k] = sender_key(number_at(node, e.from), number_at(node, e.to));
    }
    key
}

fn sender_key(sender: u32, receiver: u32) -> u32
    ensures { result ≡ sender_key sender receiver }
{
    if sender == receiver {
        return NONODE;
    }
    sender
}

// The orders of a plan in which refusals 2 to 9 find nothing.
pub fn fixed_orders(p: Plan) -> Orders
    requires { plan_refusal (lines p) ≡ nothing }
    ensures { result ≡ orders_of (lines p) }
{
    let processes = p.process_lines();
    let edges = p.edge_lines();
    let node = nodes(processes);
    let to = receivers(edges);
    let urgency = urgencies(processes, edges);
    let line = p.line;
    let pick = line.pick;
    let weight = weights(pick, urgency);
    let receiver = receiver_weights(&weight, edges);
    let sender = sender_keys(&node, edges);
    let none = zeros::<EDGES>();
    let a = in_groups(&none, edges.len(), &to, processes.len());
    let b = in_groups(&weight, processes.len(), &node, p.slots);
    let c = in_groups(&receiver, edges.len(), &sender, p.slots);
    // A variable for each array: the borrow checker takes no array out of a struct within a literal.
    let intofirst = a.first;
    let into = a.member;
    let dispatchfirst = b.first;
    let dispatch = b.member;
    let queuefirst = c.first;
    let queue = c.member;
    Orders {
        intofirst,
        into,
        dispatchfirst,
        dispatch,
        queuefirst,
        queue,
    }
}
