// Arrays by row: the node that a row belongs to, the ticks that it lasts, and its bytes on the bus. (Arrays with a
// count, not slices: the contracts speak of the zeros behind the count, too.)
ghost use Rattle.std.specs.Prelude.{◌≡◌, ℕ, ◌+◌, ◌-◌, ◌<◌, ◌≤◌};
ghost use Rattle.limits.specs.Limits.{NODES, PROCESSES, CONDITIONS, EDGES, ROWS};
ghost use Rattle.plan.specs.Tests.{at};
ghost use Rattle.plan_layout.specs.RowArrays.{process_of_row, span_of_row, size_of_row, senders_by_row};
ghost use Rattle.plan_layout.specs.RowArrays.{spans_by_row, sizes_by_row};

use arrays::{wide, zeros};
use limits::{CONDITIONS, EDGES, NODES, PROCESSES, ROWS};

// The process that a row belongs to: itself, an edge's sender, or a condition's decider.
fn row_process<'a>(
    from: &'a [u32; EDGES],
    decider: &'a [u32; CONDITIONS],
    processes: usize,
    conditionrow: usize,
    row: usize,
) -> u32
    requires fact_1 { processes ≤ PROCESSES }
    requires fact_2 { conditionrow ≤ processes + EDGES }
    requires fact_3 { row < conditionrow + CONDITIONS }
    ensures { result ≡ process_of_row from.now decider.now processes conditionrow row }
{
    if row < processes {
        return row as u32;
    }
    if row < conditionrow {
        return from[row - processes];
    }
    decider[row - conditionrow]
}

// The node that each row belongs to.
pub(crate) fn row_senders<'a>(
    from: &'a [u32; EDGES],
    decider: &'a [u32; CONDITIONS],
    node: &'a [u32; PROCESSES],
    processes: usize,
    conditionrow: usize,
    rows: usize,
) -> [u32; ROWS]
    requires fact_1 { processes ≤ PROCESSES }
    requires fact_2 { conditionrow ≤ processes + EDGES }
    requires fact_3 { rows ≤ conditionrow + CONDITIONS }
    requires fact_4 { ((k : ℕ) → at from.now k < 64) }
    requires fact_5 { ((k : ℕ) → at decider.now k < 64) }
    ensures { result ≡ senders_by_row from.now decider.now node.now processes
        conditionrow rows }
{
    let mut sender = zeros::<ROWS>();
    for r in 0..rows {
        let i = wide(row_process(from, decider, processes, conditionrow, r));
        sender[r] = node[i];
    }
    sender
}

// How long a row lasts: a process its ticks, an item the slot of its node.
fn row_span<'a>(
    ticks: &'a [u32; PROCESSES],
    lasts: &'a [u32; NODES],
    processes: usize,
    row: usize,
    node: u32,
) -> u32
    requires fact_1 { processes ≤ PROCESSES }
    requires fact_2 { node < NODES }
    ensures { result ≡ span_of_row ticks.now lasts.now processes row node }
{
    if row < processes {
        return ticks[row];
    }
    let n = wide(node);
    lasts[n]
}

// How long each row lasts.
pub(crate) fn row_spans<'a>(
    ticks: &'a [u32; PROCESSES],
    lasts: &'a [u32; NODES],
    sender: &'a [u32; ROWS],
    processes: usize,
    rows: usize,
) -> [u32; ROWS]
    requires fact_1 { processes ≤ PROCESSES }
    requires fact_2 { rows ≤ ROWS }
    requires fact_3 { ((r : ℕ) → at sender.now r < NODES) }
    ensures { result ≡ spans_by_row ticks.now lasts.now sender.now processes rows }
{
    let mut span = zeros::<ROWS>();
    for r in 0..rows {
        span[r] = row_span(ticks, lasts, processes, r, sender[r]);
    }
    span
}

// The bytes of a row: a message's, and 1 of a broadcast.
fn row_size(bytes: &[u32; EDGES], processes: usize, conditionrow: usize, row: usize) -> u32
    requires fact_1 { conditionrow ≤ processes + EDGES }
    requires fact_2 { processes ≤ PROCESSES }
    ensures { result ≡ size_of_row bytes.now processes conditionrow row }
{
    if row < conditionrow {
        return bytes[row.saturating_sub(processes)];
    }
    1
}

// The bytes of each row.
pub(crate) fn row_sizes(
    bytes: &[u32; EDGES],
    processes: usize,
    conditionrow: usize,
    rows: usize,
) -> [u32; ROWS]
    requires fact_1 { processes ≤ PROCESSES }
    requires fact_2 { conditionrow ≤ processes + EDGES }
    requires fact_3 { rows ≤ ROWS }
    ensures { result ≡ sizes_by_row bytes.now processes conditionrow rows }
{
    let mut size = zeros::<ROWS>();
    for r in 0..rows {
        size[r] = row_size(bytes, processes, conditionrow, r);
    }
    size
}
