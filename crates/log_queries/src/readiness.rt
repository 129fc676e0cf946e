// What a log in memory says of one combination: which messages are ready, which edges have delivered or never will, and
// which processes are ready. specs/Reading.antt says what the arrays hold.
ghost use Rattle.std.specs.Prelude.{◌≡◌, ◌<◌, ◌≤◌};
ghost use Rattle.limits.specs.Limits.{PROCESSES, EDGES};
ghost use Rattle.lists.specs.Lists.{all};
ghost use Rattle.plan_index.specs.Index.{laid, Bounded};
ghost use Rattle.log_rows.specs.Rows.{rows_of};
ghost use Rattle.log_queries.specs.Reading.{within};
ghost use Rattle.log_queries.specs.Queries.{edges_at, is_sendable, has_delivered, never_delivers, settles};
ghost use Rattle.log_queries.specs.Queries.{is_ready};

use limits::{EDGES, PROCESSES};
use log_rows::{Rows, comes_of, run_of, unmet_of};
use plan_index::{
    Index, asany_of, from_of, into_of, intofirst_of, knownby_of, processes_of, remote_of,
};

// A row with `x` in `comes` is over by the clock.
pub fn came(x: u32, u: u32) -> bool
    ensures { result ≡ within x u }
{
    x != 0 && x <= u
}

// The message of edge e is ready: its sender has ended, and its `when` is known to be met.
pub fn message_ready(index: &Index, rows: &Rows, e: usize, u: u32) -> bool
    requires { (e < EDGES) × Bounded (laid index.now) }
    ensures { result ≡ is_sendable (laid index.now) (rows_of rows.now) u e }
{
    if unmet_of(rows, e) != 0 {
        return false;
    }
    came(comes_of(rows, from_of(index, e)), u) && came(comes_of(rows, knownby_of(index, e)), u)
}

// Edge e has delivered: a local one when it is ready, another when its message has arrived.
pub fn delivered(index: &Index, rows: &Rows, e: usize, u: u32) -> bool
    requires { (e < EDGES) × Bounded (laid index.now) }
    ensures { result ≡ has_delivered (laid index.now) (rows_of rows.now) u e }
{
    if remote_of(index, e) != 0 {
        return came(comes_of(rows, processes_of(index) + e), u);
    }
    message_ready(index, rows, e, u)
}

// Edge e is known never to deliver: its from process may not run, or its `when` is known unmet.
pub(crate) fn never(index: &Index, rows: &Rows, e: usize, u: u32) -> bool
    requires { (e < EDGES) × Bounded (laid index.now) }
    ensures { result ≡ never_delivers (laid index.now) (rows_of rows.now) u e }
{
    run_of(rows, from_of(index, e)) == 0
        || unmet_of(rows, e) != 0 && came(comes_of(rows, knownby_of(index, e)), u)
}

// Every edge of into[a .. b] has delivered.
fn all_delivered(index: &Index, rows: &Rows, a: usize, b: usize, u: u32) -> bool
    requires { (b ≤ EDGES) × Bounded (laid index.now) }
    ensures { result ≡ all (has_delivered (laid index.now) (rows_of rows.now) u)
        (edges_at (laid index.now) a b) }
{
    for j in a..b {
        if !delivered(index, rows, into_of(index, j), u) {
            return false;
        }
    }
    true
}

// An edge of into[a .. b] has delivered, and each that has not is known never to.
fn any_delivered(index: &Index, rows: &Rows, a: usize, b: usize, u: u32) -> bool
    requires { (b ≤ EDGES) × Bounded (laid index.now) }
    ensures { result ≡ settles (laid index.now) (rows_of rows.now) u
        (edges_at (laid index.now) a b) }
{
    let mut some = false;
    for j in a..b {
        let e = into_of(index, j);
        if delivered(index, rows, e, u) {
            some = true;
        } else if !never(index, rows, e, u) {
            return false;
        }
    }
    some
}

// Process i is ready: every edge into it has delivered, or, where it counts as `any`, one has and each that has not
// never will.
pub fn ready(index: &Index, rows: &Rows, i: usize, u: u32) -> bool
    requires { (i < PROCESSES) × Bounded (laid index.now) }
    ensures { result ≡ is_ready (laid index.now) (rows_of rows.now) u i }
{
    let a = intofirst_of(index, i);
    let b = intofirst_of(index, i + 1);
    if asany_of(index, i) == 0 {
        return all_delivered(index, rows, a, b, u);
    }
    any_delivered(index, rows, a, b, u)
}
