// The arrays of a plan index, read number by number. One lent array has named offsets and a reader for each field: its
// contract names the field of `laid`, and the bound where there is one.
ghost use Rattle.std.specs.Prelude.{◌≡◌, ◌<◌, ◌≤◌, get_or};
ghost use Rattle.limits.specs.Limits.{NODES, PROCESSES, CONDITIONS, EDGES, ROWS, STARTS, TICKS, BYTES};
ghost use Rattle.plan_index.specs.Index.{laid, Bounded};

use crate::layout::{
    ASANY_AT, BYTES_AT, CONDITION_AT, DECIDER_AT, DECIDES_AT, DISPATCH_AT, DISPATCHFIRST_AT,
    FROM_AT, INTO_AT, INTOFIRST_AT, Index, KIND_AT, KNOWNBY_AT, LASTS_AT, NODE_AT, OFFSET_AT,
    QUEUE_AT, QUEUEFIRST_AT, REMOTE_AT, ROOMS_AT, SENDER_AT, SIZE_AT, SPAN_AT, TICKS_AT,
};
use arrays::wide;

// The node of process i.
pub fn node_of(index: &Index, i: usize) -> usize
    requires { (i < PROCESSES) × Bounded (laid index.now) }
    ensures { (result ≡ get_or (laid index.now).node i 0) × (result < NODES) }
{
    wide(index[NODE_AT + i])
}

// The ticks of process i.
pub fn ticks_of(index: &Index, i: usize) -> u32
    requires { (i < PROCESSES) × Bounded (laid index.now) }
    ensures { (result ≡ get_or (laid index.now).ticks i 0) × (result ≤ TICKS) }
{
    index[TICKS_AT + i]
}

// 1 where process i counts as `any`, else 0.
pub fn asany_of(index: &Index, i: usize) -> u32
    requires { i < PROCESSES }
    ensures { result ≡ get_or (laid index.now).asany i 0 }
{
    index[ASANY_AT + i]
}

// The process that sends edge e.
pub fn from_of(index: &Index, e: usize) -> usize
    requires { (e < EDGES) × Bounded (laid index.now) }
    ensures { (result ≡ get_or (laid index.now).from e 0) × (result < PROCESSES) }
{
    wide(index[FROM_AT + e])
}

// The row that makes the `when` of edge e known.
pub fn knownby_of(index: &Index, e: usize) -> usize
    requires { (e < EDGES) × Bounded (laid index.now) }
    ensures { (result ≡ get_or (laid index.now).knownby e 0) × (result < ROWS) }
{
    wide(index[KNOWNBY_AT + e])
}

// 0 where edge e stays on its node, else one more than the node that receives.
pub fn remote_of(index: &Index, e: usize) -> u32
    requires { (e < EDGES) × Bounded (laid index.now) }
    ensures { (result ≡ get_or (laid index.now).remote e 0) × (result ≤ NODES) }
{
    index[REMOTE_AT + e]
}

// The bytes of edge e.
pub fn bytes_of(index: &Index, e: usize) -> u32
    requires { (e < EDGES) × Bounded (laid index.now) }
    ensures { (result ≡ get_or (laid index.now).bytes e 0) × (result ≤ BYTES) }
{
    index[BYTES_AT + e]
}

// The kind of the `when` of edge e: 0 always, 1 true, 2 false.
pub fn kind_of(index: &Index, e: usize) -> u32
    requires { e < EDGES }
    ensures { result ≡ get_or (laid index.now).kind e 0 }
{
    index[KIND_AT + e]
}

// The condition that the `when` of edge e names.
pub fn condition_of(index: &Index, e: usize) -> usize
    requires { (e < EDGES) × Bounded (laid index.now) }
    ensures { (result ≡ get_or (laid index.now).condition e 0) × (result < CONDITIONS) }
{
    wide(index[CONDITION_AT + e])
}

// The process that decides condition k.
pub fn decider_of(index: &Index, k: usize) -> usize
    requires { (k < CONDITIONS) × Bounded (laid index.now) }
    ensures { (result ≡ get_or (laid index.now).decider k 0) × (result < PROCESSES) }
{
    wide(index[DECIDER_AT + k])
}

// The place from which the edges into process i stand in `into`, up to that of process i + 1.
pub fn intofirst_of(index: &Index, i: usize) -> usize
    requires { (i < STARTS) × Bounded (laid index.now) }
    ensures { (result ≡ get_or (laid index.now).intofirst i 0) × (result ≤ EDGES) }
{
    wide(index[INTOFIRST_AT + i])
}

// The edge at place j of `into`.
pub fn into_of(index: &Index, j: usize) -> usize
    requires { (j < EDGES) × Bounded (laid index.now) }
    ensures { (result ≡ get_or (laid index.now).into j 0) × (result < EDGES) }
{
    wide(index[INTO_AT + j])
}

// The place from which the processes of node n stand in `dispatch`, in dispatch order.
pub fn dispatchfirst_of(index: &Index, n: usize) -> usize
    requires { (n < STARTS) × Bounded (laid index.now) }
    ensures { (result ≡ get_or (laid index.now).dispatchfirst n 0) × (result ≤ EDGES) }
{
    wide(index[DISPATCHFIRST_AT + n])
}

// The process at place j of `dispatch`.
pub fn dispatch_of(index: &Index, j: usize) -> usize
    requires { (j < EDGES) × Bounded (laid index.now) }
    ensures { (result ≡ get_or (laid index.now).dispatch j 0) × (result < PROCESSES) }
{
    wide(index[DISPATCH_AT + j])
}

// The place from which the messages of node n stand in `queue`, in the order of the queue.
pub fn queuefirst_of(index: &Index, n: usize) -> usize
    requires { (n < STARTS) × Bounded (laid index.now) }
    ensures { (result ≡ get_or (laid index.now).queuefirst n 0) × (result ≤ EDGES) }
{
    wide(index[QUEUEFIRST_AT + n])
}

// The edge at place j of `queue`.
pub fn queue_of(index: &Index, j: usize) -> usize
    requires { (j < EDGES) × Bounded (laid index.now) }
    ensures { (result ≡ get_or (laid index.now).queue j 0) × (result < EDGES) }
{
    wide(index[QUEUE_AT + j])
}

// The ticks from the beginning of a round to the slot of node n.
pub fn offset_of(index: &Index, n: usize) -> u32
    requires { n < NODES }
    ensures { result ≡ get_or (laid index.now).offset n 0 }
{
    index[OFFSET_AT + n]
}

// The ticks of the slot of node n.
pub fn lasts_of(index: &Index, n: usize) -> u32
    requires { n < NODES }
    ensures { result ≡ get_or (laid index.now).lasts n 0 }
{
    index[LASTS_AT + n]
}

// The bytes of the slot of node n.
pub fn rooms_of(index: &Index, n: usize) -> u32
    requires { n < NODES }
    ensures { result ≡ get_or (laid index.now).rooms n 0 }
{
    index[ROOMS_AT + n]
}

// The conditions that the processes of node n decide, as a mask.
pub fn decides_of(index: &Index, n: usize) -> u32
    requires { (n < NODES) × Bounded (laid index.now) }
    ensures { (result ≡ get_or (laid index.now).decides n 0) × (result < 64) }
{
    index[DECIDES_AT + n]
}

// The ticks that a row lasts.
pub fn span_of(index: &Index, row: usize) -> u32
    requires { (row < ROWS) × Bounded (laid index.now) }
    ensures { (result ≡ get_or (laid index.now).span row 0) × (result ≤ TICKS) }
{
    index[SPAN_AT + row]
}

// The node that a row belongs to.
pub fn sender_of(index: &Index, row: usize) -> usize
    requires { (row < ROWS) × Bounded (laid index.now) }
    ensures { (result ≡ get_or (laid index.now).sender row 0) × (result < NODES) }
{
    wide(index[SENDER_AT + row])
}

// The bytes of a row on the bus.
pub fn size_of(index: &Index, row: usize) -> u32
    requires { (row < ROWS) × Bounded (laid index.now) }
    ensures { (result ≡ get_or (laid index.now).size row 0) × (result ≤ BYTES) }
{
    index[SIZE_AT + row]
}
