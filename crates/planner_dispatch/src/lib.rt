// The starts at one event: each free node starts the first ready process in its dispatch order. specs/Starts.antt says
// what the arrays hold.
// Document 01: "Each free node starts its ready process of highest urgency, ties to the lower number."
#![tactic(auto)]

ghost use Rattle.std.specs.Prelude.{◌≡◌, ◌⊎◌, ◌<◌, ◌≤◌, unwrap_or, IfSome};
ghost use Rattle.limits.specs.Limits.{NODES, PROCESSES, EDGES, LASTCLOCK};
ghost use Rattle.plan_index.specs.Index.{laid, Bounded};
ghost use Rattle.log_rows.specs.Rows.{rows_of, with_comes};
ghost use Rattle.planner_nodes.specs.Nodes.{nodes_of};
ghost use Rattle.planner_dispatch.specs.Starts.{end_after, rows_after};
ghost use Rattle.planner_dispatch.specs.Dispatching.{can_start_in, picked, NothingNew, NodeStarted, Started};

use bitset::{lowest_node, without_lowest_node};
use limits::NEVER;
use log_queries::ready;
use log_rows::{Rows, comes_of, put_comes};
use plan_index::{Index, dispatch_of, dispatchfirst_of, slots_of, ticks_of};
use planner_nodes::{Nodes, busy_of, put_busy};

// Process i has not started, and it is ready.
fn can_start(index: &Index, rows: &Rows, i: usize, u: u32) -> bool
    requires { (i < PROCESSES) × Bounded (laid index.now) }
    ensures { result ≡ can_start_in (laid index.now) (rows_of rows.now) u i }
{
    comes_of(rows, i) == 0 && ready(index, rows, i, u)
}

// The first process of dispatch[a .. b] that has not started and is ready.
fn pick(index: &Index, rows: &Rows, a: usize, b: usize, u: u32) -> Option<usize>
    requires { (b ≤ EDGES) × Bounded (laid index.now) }
    ensures first { unwrap_or result PROCESSES ≡ picked (laid index.now) (rows_of rows.now) u a b }
    ensures among { IfSome result (λ i. i < PROCESSES) }
{
    for j in a..b {
        let i = dispatch_of(index, j);
        if can_start(index, rows, i, u) {
            return Some(i);
        }
    }
    None
}

// The start of a free node whose processes stand in dispatch[a .. b] and whose last one ended at `last`: where one of
// them can start, it is entered in the rows, and the answer is the end of the last process.
fn start(index: &Index, a: usize, b: usize, u: u32, last: u32, rows: &mut Rows) -> u32
    requires { (b ≤ EDGES) × (u ≤ LASTCLOCK) × Bounded (laid index.now) }
    ensures end { result ≡ end_after (picked (laid index.now) (rows_of rows.old) u a b) u
        (laid index.now).ticks last }
    ensures rows { rows_of rows.new ≡ with_comes
        (rows_after (picked (laid index.now) (rows_of rows.old) u a b) u
        (laid index.now).ticks (rows_of rows.old).comes) (rows_of rows.old) }
{
    let Some(x) = pick(index, rows, a, b, u) else {
        return last;
    };
    let end = u + ticks_of(index, x);
    put_comes(rows, x, end);
    end
}

// The end of a process that starts, where it is the first to end so far, or else the first so far. A process that ends
// by the clock u has not started at it. `planner_sends::sooner` promises an equation; one function of both would be no
// plainer, since its contract would hold that beside these bounds.
fn sooner_end(first: u32, end: u32, u: u32) -> u32
    ensures { (result ≤ first) × (u < end → result ≤ end) × ((result ≡ first) ⊎ ((u < end) × (result ≡ end))) }
{
    if u < end { first.min(end) } else { first }
}

// Node n starts, if it is one of the nodes and free. `first` is the end of the process that ends first of those that
// the nodes before it started, and so is the answer with node n.
fn start_node(
    index: &Index,
    u: u32,
    n: usize,
    first: u32,
    rows: &mut Rows,
    nodes: &mut Nodes,
) -> u32
    requires { (n < NODES) × (u ≤ LASTCLOCK) × Bounded (laid index.now) }
    ensures { NodeStarted (laid index.now) u n (rows_of rows.old)
        (nodes_of nodes.old) first (rows_of rows.new) (nodes_of nodes.new) result }
{
    if slots_of(index) <= n {
        return first;
    }
    let last = busy_of(nodes, n);
    if u < last {
        return first;
    }
    let a = dispatchfirst_of(index, n);
    let b = dispatchfirst_of(index, n + 1);
    let end = start(index, a, b, u, last, rows);
    put_busy(nodes, n, end);
    sooner_end(first, end, u)
}

// Each free node starts its first ready process in dispatch order that has not started: `busy` has then the end of each
// node's last process, and `comes` the end of each process. `new` is the mask of the nodes for which something is new
// at this clock; the others have nothing to start and are passed by. The answer is the end of the process that ends
// first of those that start, or `NEVER` (no Option: it is compared with clocks, as the latest).
pub fn starts(index: &Index, u: u32, new: u32, rows: &mut Rows, nodes: &mut Nodes) -> u32
    requires { Bounded (laid index.now) × (u ≤ LASTCLOCK) × (new < 256)
        × NothingNew (laid index.now) (rows_of rows.old) (nodes_of nodes.old).busy u new }
    ensures { Started (laid index.now) u (rows_of rows.old) (nodes_of nodes.old)
        (rows_of rows.new) (nodes_of nodes.new) result }
{
    let mut first: u32 = NEVER;
    let mut left = new;
    while left != 0 {
        let n = lowest_node(left) as usize;
        first = start_node(index, u, n, first, rows, nodes);
        left = without_lowest_node(left);
    }
    first
}
