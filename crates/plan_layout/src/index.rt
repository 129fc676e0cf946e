// A plan laid out for planning, once: its lines, orders and bus as arrays of numbers.
ghost use Rattle.std.specs.Prelude.{◌≡◌, ◌≤◌};
ghost use Rattle.limits.specs.Limits.{CONDITIONS};
ghost use Rattle.lists.specs.Lists.{fill};
ghost use Rattle.model.specs.Refusals.{nothing, plan_refusal};
ghost use Rattle.plan.specs.Memory.{lines};
ghost use Rattle.plan.specs.Tests.{at};
ghost use Rattle.plan_index.specs.Index.{laid};
ghost use Rattle.plan_layout.specs.Columns.{process_columns, edge_columns};
ghost use Rattle.plan_layout.specs.Layout.{Small, index_of, plan_index};

use crate::index_words::lay_out;
use crate::line_arrays::{
    conditions_named, counted_as_any, durations, kinds, known_rows, nodes, remotes, senders, sizes,
};
use crate::node_arrays::decided_by_node;
use crate::row_arrays::{row_senders, row_sizes, row_spans};
use arrays::copy_part;
use bus_timetable::Timetable;
use limits::CONDITIONS;
use plan::Plan;
use plan_index::{Index, PlanIndex};
use plan_order::{Orders, fixed_orders};

// The process that decides each condition.
fn deciders(p: Plan) -> [u32; CONDITIONS]
    requires { p.conditions ≤ CONDITIONS }
    ensures { result ≡ fill CONDITIONS (at p.condition) p.conditions }
{
    let mut decider = [0u32; CONDITIONS];
    copy_part(&p.condition, 0, p.conditions, &mut decider);
    decider
}

// The plan index of a plan's lines, orders and timetable.
fn laid_out(p: &Plan, o: Orders, t: Timetable, decider: [u32; CONDITIONS]) -> PlanIndex
    requires fact_1 { plan_refusal (lines p.now) ≡ nothing }
    requires fact_2 { Small p.now.processes p.now.edges p.now.conditions
        (process_columns (lines p.now)) (edge_columns (lines p.now)) decider }
    ensures { result ≡ index_of p.now.processes p.now.edges p.now.conditions p.now.slots
        (process_columns (lines p.now)) (edge_columns (lines p.now)) o t decider }
{
    let processes = p.processes;
    let edges = p.edges;
    let conditions = p.conditions;
    let slots = p.slots;
    let conditionrow = processes + edges;
    let rows = conditionrow + conditions;
    let process_lines = p.process_lines();
    let edge_lines = p.edge_lines();
    let node = nodes(process_lines);
    let ticks = durations(process_lines);
    let from = senders(edge_lines);
    let bytes = sizes(edge_lines);
    let kind = kinds(edge_lines);
    let condition = conditions_named(edge_lines);
    let offset = t.offset;
    let lasts = t.ticks;
    let rooms = t.bytes;
    let intofirst = o.intofirst;
    let into = o.into;
    let dispatchfirst = o.dispatchfirst;
    let dispatch = o.dispatch;
    let queuefirst = o.queuefirst;
    let queue = o.queue;
    let asany = counted_as_any(process_lines, intofirst);
    let knownby = known_rows(&kind, &condition, &from, edges, conditionrow as u32);
    let remote = remotes(&node, edge_lines);
    let sender = row_senders(&from, &decider, &node, processes, conditionrow, rows);
    let span = row_spans(&ticks, &lasts, &sender, processes, rows);
    let size = row_sizes(&bytes, processes, conditionrow, rows);
    let decides = decided_by_node(&decider, &node, conditions);
    let round = t.round;
    let reciprocal = t.reciprocal;
    PlanIndex {
        processes,
        edges,
        conditions,
        slots,
        conditionrow,
        rows,
        node,
        ticks,
        asany,
        from,
        knownby,
        remote,
        bytes,
        kind,
        condition,
        decider,
        intofirst,
        into,
        dispatchfirst,
        dispatch,
        queuefirst,
        queue,
        round,
        reciprocal,
        offset,
        lasts,
        rooms,
        decides,
        span,
        sender,
        size,
    }
}

// The fields of the plan index of a plan in which refusals 2 to 9 find nothing.
fn fields_of(p: Plan) -> PlanIndex
    requires { plan_refusal (lines p) ≡ nothing }
    ensures { result ≡ plan_index (lines p) }
{
    let o = fixed_orders(p);
    let t = bus_timetable::of_plan(p);
    let decider = deciders(p);
    laid_out(&p, o, t, decider)
}

// The plan index of a plan in which refusals 2 to 9 find nothing.
pub fn of_plan(p: Plan) -> Index
    requires { plan_refusal (lines p) ≡ nothing }
    ensures { laid result ≡ plan_index (lines p) }
{
    lay_out(fields_of(p))
}
