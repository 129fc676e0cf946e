// Arrays of a plan's lines: by process, its node, its ticks and whether it counts as `any`; by edge, its numbers, the
// row that makes its `when` known and the node that receives. Zeros stand behind the lines.
ghost use Rattle.std.specs.Prelude.{◌≡◌, ℕ, ◌+◌, ◌<◌, ◌≤◌, length};
ghost use Rattle.limits.specs.Limits.{NODES, PROCESSES, CONDITIONS, EDGES, CONDITIONROW};
ghost use Rattle.lists.specs.Lists.{fill};
ghost use Rattle.plan.specs.Numbers.{any_number, kind_number, condition_number, node_at, ticks_at};
ghost use Rattle.plan.specs.Numbers.{any_at, from_at, to_at, bytes_at, kind_at, condition_at};
ghost use Rattle.plan.specs.Tests.{at};
ghost use Rattle.plan_layout.specs.LineArrays.{knownby_of, as_any_of, receiver_of, known_rows_by_edge};

use arrays::{wide, zeros};
use limits::{EDGES, PROCESSES, STARTS};
use plan::{Edge, Process, Waits, When};

// The node of each process.
pub(crate) fn nodes(processes: &[Process]) -> [u32; PROCESSES]
    requires { length processes.now ≤ PROCESSES }
    ensures { result ≡ fill PROCESSES (node_at processes.now) (length processes.now) }
{
    let mut node = zeros::<PROCESSES>();
    for (i, q) in processes.iter().enumerate() {
        node[i] = q.node;
    }
    node
}

// The ticks of each process.
pub(crate) fn durations(processes: &[Process]) -> [u32; PROCESSES]
    requires { length processes.now ≤ PROCESSES }
    ensures { result ≡ fill PROCESSES (ticks_at processes.now) (length processes.now) }
{
    let mut ticks = zeros::<PROCESSES>();
    for (i, q) in processes.iter().enumerate() {
        ticks[i] = q.ticks;
    }
    ticks
}

// The process that sends each edge.
pub(crate) fn senders(edges: &[Edge]) -> [u32; EDGES]
    requires { length edges.now ≤ EDGES }
    ensures { result ≡ fill EDGES (from_at edges.now) (length edges.now) }
{
    let mut from = zeros::<EDGES>();
    for (k, e) in edges.iter().enumerate() {
        from[k] = e.from;
    }
    from
}

// The bytes of each edge.
pub(crate) fn sizes(edges: &[Edge]) -> [u32; EDGES]
    requires { length edges.now ≤ EDGES }
    ensures { result ≡ fill EDGES (bytes_at edges.now) (length edges.now) }
{
    let mut bytes = zeros::<EDGES>();
    for (k, e) in edges.iter().enumerate() {
        bytes[k] = e.bytes;
    }
    bytes
}

fn kind_number(w: When) -> u32
    ensures { result ≡ kind_number w }
{
    match w {
        When::Always => 0,
        When::True(_) => 1,
        When::False(_) => 2,
    }
}

// The kind of each edge's `when`: 0 for always, 1 for a condition that must be true, 2 for one that must be false.
pub(crate) fn kinds(edges: &[Edge]) -> [u32; EDGES]
    requires { length edges.now ≤ EDGES }
    ensures { result ≡ fill EDGES (kind_at edges.now) (length edges.now) }
{
    let mut kind = zeros::<EDGES>();
    for (k, e) in edges.iter().enumerate() {
        kind[k] = kind_number(e.when);
    }
    kind
}

fn condition_number(w: When) -> u32
    ensures { result ≡ condition_number w }
{
    match w {
        When::Always => 0,
        When::True(k) | When::False(k) => k,
    }
}

// The condition that each edge's `when` names, 0 where it names none.
pub(crate) fn conditions_named(edges: &[Edge]) -> [u32; EDGES]
    requires { length edges.now ≤ EDGES }
    ensures { result ≡ fill EDGES (condition_at edges.now) (length edges.now) }
{
    let mut condition = zeros::<EDGES>();
    for (k, e) in edges.iter().enumerate() {
        condition[k] = condition_number(e.when);
    }
    condition
}

fn any_number(w: Waits) -> u32
    ensures { result ≡ any_number w }
{
    match w {
        Waits::All => 0,
        Waits::Any => 1,
    }
}

// Whether a process counts as `any`: it says so, and an edge leads into it.
fn counts_as_any(any: u32, first: u32, end: u32) -> u32
    ensures { result ≡ as_any_of any first end }
{
    u32::from(any != 0 && first < end)
}

// Whether each process counts as `any`.
pub(crate) fn counted_as_any(processes: &[Process], first: [u32; STARTS]) -> [u32; PROCESSES]
    requires { length processes.now ≤ PROCESSES }
    ensures { result ≡ fill PROCESSES (λ i. as_any_of (any_at processes.now i) (at first i)
        (at first (i + 1))) (length processes.now) }
{
    let mut asany = zeros::<PROCESSES>();
    for (i, q) in processes.iter().enumerate() {
        asany[i] = counts_as_any(any_number(q.waits), first[i], first[i + 1]);
    }
    asany
}

// The row that makes a `when` known: the sender's own where it is always met, else that of its condition's broadcast.
fn known_row(kind: u32, from: u32, row: u32) -> u32
    ensures { result ≡ knownby_of kind from row }
{
    if kind == 0 {
        return from;
    }
    row
}

// The row that makes the `when` of each edge known; `conditionrow` is the row of condition 0.
pub(crate) fn known_rows<'a>(
    kind: &'a [u32; EDGES],
    condition: &'a [u32; EDGES],
    from: &'a [u32; EDGES],
    edges: usize,
    conditionrow: u32,
) -> [u32; EDGES]
    requires fact_1 { edges ≤ EDGES }
    requires fact_2 { conditionrow ≤ CONDITIONROW }
    requires fact_3 { ((k : ℕ) → at condition.now k < CONDITIONS) }
    ensures { result ≡ known_rows_by_edge kind.now condition.now from.now edges conditionrow }
{
    let mut knownby = zeros::<EDGES>();
    for k in 0..edges {
        let row = conditionrow + condition[k];
        knownby[k] = known_row(kind[k], from[k], row);
    }
    knownby
}

// One more than the node that receives, or 0 where the node that sends is the same.
fn receiver(sends: u32, receives: u32) -> u32
    requires { receives < NODES }
    ensures { result ≡ receiver_of sends receives }
{
    if sends == receives {
        return 0;
    }
    receives + 1
}

// Which node receives each edge that is between nodes: one more than its number, and 0 for an edge that stays on its
// node.
pub(crate) fn remotes(node: &[u32; PROCESSES], edges: &[Edge]) -> [u32; EDGES]
    requires fact_1 { length edges.now ≤ EDGES }
    requires fact_2 { ((k : ℕ) → from_at edges.now k < 64) }
    requires fact_3 { ((k : ℕ) → to_at edges.now k < 64) }
    requires fact_4 { ((i : ℕ) → at node.now i < NODES) }
    ensures { result ≡ fill EDGES (λ k. receiver_of (at node.now (from_at edges.now k))
        (at node.now (to_at edges.now k))) (length edges.now) }
{
    let mut remote = zeros::<EDGES>();
    for (k, e) in edges.iter().enumerate() {
        let i = wide(e.from);
        let j = wide(e.to);
        remote[k] = receiver(node[i], node[j]);
    }
    remote
}
