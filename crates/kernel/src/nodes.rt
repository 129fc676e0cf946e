// The node that each row of a plan belongs to, worked out once for a search.
ghost use Rattle.std.specs.Prelude.{◌≡◌, ◌+◌};
ghost use Rattle.model.specs.Bus.{rows};
ghost use Rattle.model.specs.Refusals.{nothing, plan_refusal};
ghost use Rattle.plan.specs.Memory.{lines};
ghost use Rattle.kernel.specs.Finding.{nodes_to, nodes_of};

use arrays::{wide, zeros};
use limits::ROWS;
use plan::Plan;

// The node of each row of a plan, zeros past them, and how many rows there are.
#[derive(Clone, Copy)]
pub struct RowNodes {
    pub node: [u32; ROWS],
    pub rows: usize,
}

// The rows of processes: each has its own node.
fn put_processes(p: Plan, node: &mut [u32; ROWS])
    requires fact_1 { plan_refusal (lines p) ≡ nothing }
    requires fact_2 { node.old ≡ nodes_to p 0 }
    ensures { node.new ≡ nodes_to p p.processes }
{
    for i in 0..p.processes {
        let q = p.process[i];
        node[i] = q.node;
    }
}

// The rows of edges: each has the node of its sender, whose row stands before.
fn put_edges(p: Plan, node: &mut [u32; ROWS])
    requires fact_1 { plan_refusal (lines p) ≡ nothing }
    requires fact_2 { node.old ≡ nodes_to p p.processes }
    ensures { node.new ≡ nodes_to p (p.processes + p.edges) }
{
    for i in 0..p.edges {
        let e = p.edge[i];
        let sender = wide(e.from);
        node[p.processes + i] = node[sender];
    }
}

// The rows of conditions: each has the node of its decider, whose row stands before.
fn put_conditions(p: Plan, node: &mut [u32; ROWS])
    requires fact_1 { plan_refusal (lines p) ≡ nothing }
    requires fact_2 { node.old ≡ nodes_to p (p.processes + p.edges) }
    ensures { node.new ≡ nodes_to p (rows (lines p)) }
{
    let first = p.processes + p.edges;
    for i in 0..p.conditions {
        let decider = wide(p.condition[i]);
        node[first + i] = node[decider];
    }
}

// The node of each row of a plan in which refusals 2 to 9 find nothing.
pub fn row_nodes(p: Plan) -> RowNodes
    requires { plan_refusal (lines p) ≡ nothing }
    ensures { result ≡ nodes_of p }
{
    let mut node = zeros::<ROWS>();
    put_processes(p, &mut node);
    put_edges(p, &mut node);
    put_conditions(p, &mut node);
    let rows = p.processes + p.edges + p.conditions;
    RowNodes { node, rows }
}
