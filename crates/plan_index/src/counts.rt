// The single numbers of a plan index.
ghost use Rattle.std.specs.Prelude.{◌≡◌, ◌≤◌};
ghost use Rattle.limits.specs.Limits.{NODES, PROCESSES, CONDITIONS, EDGES, CONDITIONROW, ROWS};
ghost use Rattle.plan_index.specs.Index.{laid, Bounded};

use crate::layout::{
    CONDITIONROW_AT, CONDITIONS_AT, EDGES_AT, Index, PROCESSES_AT, RECIPROCAL_AT, ROUND_AT,
    ROWS_AT, SLOTS_AT,
};
use arrays::wide;

// How many processes the plan has.
pub fn processes_of(index: &Index) -> usize
    requires { Bounded (laid index.now) }
    ensures { (result ≡ (laid index.now).processes) × (result ≤ PROCESSES) }
{
    wide(index[PROCESSES_AT])
}

// How many edges it has.
pub fn edges_of(index: &Index) -> usize
    requires { Bounded (laid index.now) }
    ensures { (result ≡ (laid index.now).edges) × (result ≤ EDGES) }
{
    wide(index[EDGES_AT])
}

// How many conditions it has.
pub fn conditions_of(index: &Index) -> usize
    requires { Bounded (laid index.now) }
    ensures { (result ≡ (laid index.now).conditions) × (result ≤ CONDITIONS) }
{
    wide(index[CONDITIONS_AT])
}

// How many slots it has, and so how many nodes.
pub fn slots_of(index: &Index) -> usize
    requires { Bounded (laid index.now) }
    ensures { (result ≡ (laid index.now).slots) × (result ≤ NODES) }
{
    wide(index[SLOTS_AT])
}

// The row of condition 0: rows are processes, then edges, then conditions.
pub fn conditionrow_of(index: &Index) -> usize
    requires { Bounded (laid index.now) }
    ensures { (result ≡ (laid index.now).conditionrow) × (result ≤ CONDITIONROW) }
{
    wide(index[CONDITIONROW_AT])
}

// How many rows it has.
pub fn rows_of(index: &Index) -> usize
    requires { Bounded (laid index.now) }
    ensures { (result ≡ (laid index.now).rows) × (result ≤ ROWS) }
{
    wide(index[ROWS_AT])
}

// The ticks of a round.
pub fn round_of(index: &Index) -> u32
    ensures { result ≡ (laid index.now).round }
{
    index[ROUND_AT]
}

// How many rounds go into 2^31 - 1 ticks: the reciprocal of the round.
pub fn reciprocal_of(index: &Index) -> u32
    ensures { result ≡ (laid index.now).reciprocal }
{
    index[RECIPROCAL_AT]
}
