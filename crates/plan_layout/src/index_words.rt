// The fields of a plan index laid out in one array, one behind the other.
ghost use Rattle.std.specs.Prelude.{◌≡◌};
ghost use Rattle.std.proofs.lemmas.List.Edits.{sets};
ghost use Rattle.plan_index.specs.Index.{laid, Bounded};
ghost use Rattle.plan_layout.specs.Laying.{counts, ProcessesLaid, EdgesLaid, OrdersLaid};
ghost use Rattle.plan_layout.specs.Laying.{BusLaid, RowsLaid};

use crate::laying::lay;
use plan_index::{
    ASANY_AT, BYTES_AT, CONDITION_AT, CONDITIONROW_AT, CONDITIONS_AT, DECIDER_AT, DECIDES_AT,
    DISPATCH_AT, DISPATCHFIRST_AT, EDGES_AT, FROM_AT, INTO_AT, INTOFIRST_AT, Index, KIND_AT,
    KNOWNBY_AT, LASTS_AT, NODE_AT, OFFSET_AT, PROCESSES_AT, PlanIndex, QUEUE_AT, QUEUEFIRST_AT,
    RECIPROCAL_AT, REMOTE_AT, ROOMS_AT, ROUND_AT, ROWS_AT, SENDER_AT, SIZE_AT, SLOTS_AT, SPAN_AT,
    TICKS_AT, WORDS,
};

// Stores the counts.
fn lay_counts(b: PlanIndex, index: &mut Index)
    requires { Bounded b }
    ensures { index.new ≡ sets index.old 0 (counts b) }
{
    index[PROCESSES_AT] = b.processes as u32;
    index[EDGES_AT] = b.edges as u32;
    index[CONDITIONS_AT] = b.conditions as u32;
    index[SLOTS_AT] = b.slots as u32;
    index[CONDITIONROW_AT] = b.conditionrow as u32;
    index[ROWS_AT] = b.rows as u32;
    index[ROUND_AT] = b.round;
    index[RECIPROCAL_AT] = b.reciprocal;
}

// Stores the arrays by process.
fn lay_by_processes(b: PlanIndex, index: &mut Index)
    ensures { ProcessesLaid b index.old index.new }
{
    lay(&b.node, NODE_AT, index);
    lay(&b.ticks, TICKS_AT, index);
    lay(&b.asany, ASANY_AT, index);
}

// Stores the arrays by edge, and who decides each condition.
fn lay_by_edges(b: PlanIndex, index: &mut Index)
    ensures { EdgesLaid b index.old index.new }
{
    lay(&b.from, FROM_AT, index);
    lay(&b.knownby, KNOWNBY_AT, index);
    lay(&b.remote, REMOTE_AT, index);
    lay(&b.bytes, BYTES_AT, index);
    lay(&b.kind, KIND_AT, index);
    lay(&b.condition, CONDITION_AT, index);
    lay(&b.decider, DECIDER_AT, index);
}

// Stores the edges into each process, and the orders of each node.
fn lay_by_orders(b: PlanIndex, index: &mut Index)
    ensures { OrdersLaid b index.old index.new }
{
    lay(&b.intofirst, INTOFIRST_AT, index);
    lay(&b.into, INTO_AT, index);
    lay(&b.dispatchfirst, DISPATCHFIRST_AT, index);
    lay(&b.dispatch, DISPATCH_AT, index);
    lay(&b.queuefirst, QUEUEFIRST_AT, index);
    lay(&b.queue, QUEUE_AT, index);
}

// Stores where the slots lie, and which conditions each node decides.
fn lay_by_bus(b: PlanIndex, index: &mut Index)
    ensures { BusLaid b index.old index.new }
{
    lay(&b.offset, OFFSET_AT, index);
    lay(&b.lasts, LASTS_AT, index);
    lay(&b.rooms, ROOMS_AT, index);
    lay(&b.decides, DECIDES_AT, index);
}

// Stores the arrays by row.
fn lay_by_rows(b: PlanIndex, index: &mut Index)
    ensures { RowsLaid b index.old index.new }
{
    lay(&b.span, SPAN_AT, index);
    lay(&b.sender, SENDER_AT, index);
    lay(&b.size, SIZE_AT, index);
}

// The array in which these fields are laid out.
pub(crate) fn lay_out(b: PlanIndex) -> Index
    requires { Bounded b }
    ensures { laid result ≡ b }
{
    let mut index = [0u32; WORDS];
    lay_counts(b, &mut index);
    lay_by_processes(b, &mut index);
    lay_by_edges(b, &mut index);
    lay_by_orders(b, &mut index);
    lay_by_bus(b, &mut index);
    lay_by_rows(b, &mut index);
    index
}
