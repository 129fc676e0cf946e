// Refusals 3 to 9, each over all the lines of a plan in which refusal 2 finds nothing.
ghost use Rattle.std.specs.Prelude.{◌≡◌};
ghost use Rattle.lists.specs.Lists.{any};
ghost use Rattle.model.specs.Plan.{edges};
ghost use Rattle.model.specs.Refusals.{wrong_sizes, wrong_nodes, wrong_deciders, wrong_ends};
ghost use Rattle.model.specs.Refusals.{twin_edges, wrong_when, too_long};
ghost use Rattle.plan.specs.Bounds.{Few, Ended};
ghost use Rattle.plan.specs.Memory.{lines};

use arrays::wide;
use limits::{BYTES, TICKS};
use plan::{
    Plan, any_twice, has_long_message, has_wrong_ends, has_wrong_when, is_outside, shared_node,
    wrong_plan_line,
};

// `byte` is outside 1 to 1,000, `head` above 16, the bytes of a slot or of an edge outside 1 to 64, or ticks outside
// 1 to 100,000.
pub(crate) fn wrong_sizes(p: &Plan) -> bool
    requires { Few p.now }
    ensures { result ≡ wrong_sizes (lines p.now) }
{
    wrong_plan_line(p.line)
        || p.slot_lines().iter().any(|s| is_outside(s.bytes, 1, BYTES))
        || p.edge_lines().iter().any(|e| is_outside(e.bytes, 1, BYTES))
        || p.process_lines()
            .iter()
            .any(|q| is_outside(q.ticks, 1, TICKS))
}

// A node number is not below the slot count, or two slots share a node.
pub(crate) fn wrong_nodes(p: &Plan) -> bool
    requires { Few p.now }
    ensures { result ≡ wrong_nodes (lines p.now) }
{
    p.slot_lines().iter().any(|s| p.slots <= wide(s.node))
        || p.process_lines().iter().any(|q| p.slots <= wide(q.node))
        || shared_node(p)
}

// A condition names no process, or one already named.
pub(crate) fn wrong_deciders(p: &Plan) -> bool
    requires { Few p.now }
    ensures { result ≡ wrong_deciders (lines p.now) }
{
    let deciders = p.condition_lines();
    deciders.iter().any(|i| p.processes <= wide(*i)) || any_twice(deciders)
}

// An edge names no process, or its `from` is not below its `to`.
pub(crate) fn wrong_ends(p: &Plan) -> bool
    requires { Few p.now }
    ensures { result ≡ any (wrong_ends (lines p.now)) (lines p.now).edges }
{
    p.edge_lines().iter().any(|e| has_wrong_ends(p, e))
}

// Two edges share both `from` and `to`.
pub(crate) fn twin_edges(p: &Plan) -> bool
    requires { Few p.now × Ended (lines p.now) }
    ensures { result ≡ twin_edges (lines p.now).edges }
{
    plan::twin_edges(p.edge_lines())
}

// A `when` names a condition that its `from` process does not decide.
pub(crate) fn wrong_whens(p: &Plan) -> bool
    requires { Few p.now }
    ensures { result ≡ any (wrong_when (lines p.now)) (lines p.now).edges }
{
    p.edge_lines().iter().any(|e| has_wrong_when(p, e))
}

// A message between nodes is longer than its sender's slot.
pub(crate) fn long_messages(p: &Plan) -> bool
    requires { Few p.now × Ended (lines p.now) }
    ensures { result ≡ any (too_long (lines p.now)) (edges (lines p.now)) }
{
    for e in p.edge_lines() {
        if has_long_message(p, e) {
            return true;
        }
    }
    false
}
