// Whether an edge that carries has not delivered by a clock, read off what a combination's met entries leave by row. A
// row's `comes` is 0 where no entry of the row is met, else the met entry's tick plus what the row lasts, plus 1; `run`
// is 0 where a process is not active in the combination.
ghost use Rattle.std.specs.Prelude.{◌≡◌, ◌<◌, ◌≤◌};
ghost use Rattle.limits.specs.Limits.{EDGES};
ghost use Rattle.lists.specs.Lists.{any};
ghost use Rattle.plan_index.specs.Index.{laid, Bounded};
ghost use Rattle.log_rows.specs.Rows.{rows_of};
ghost use Rattle.log_queries.specs.Queries.{edges_at};
ghost use Rattle.checker_inputs.specs.Inputs.{edge_misses};

use log_queries::delivered;
use log_rows::{Rows, run_of, unmet_of};
use plan_index::{Index, from_of, into_of};

// Edge e carries and has not delivered by the clock.
fn misses(index: &Index, rows: &Rows, e: usize, u: u32) -> bool
    requires { (e < EDGES) × Bounded (laid index.now) }
    ensures { result ≡ edge_misses (laid index.now) (rows_of rows.now) u e }
{
    if run_of(rows, from_of(index, e)) == 0 {
        return false;
    }
    if unmet_of(rows, e) != 0 {
        return false;
    }
    !delivered(index, rows, e, u)
}

// Some edge of into[a .. b] carries and has not delivered by the clock.
pub(crate) fn misses_some(index: &Index, rows: &Rows, a: usize, b: usize, u: u32) -> bool
    requires { (b ≤ EDGES) × Bounded (laid index.now) }
    ensures { result ≡ any (edge_misses (laid index.now) (rows_of rows.now) u)
        (edges_at (laid index.now) a b) }
{
    for j in a..b {
        if misses(index, rows, into_of(index, j), u) {
            return true;
        }
    }
    false
}
