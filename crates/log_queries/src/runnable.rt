// Which processes may still run, by a log in memory of one combination.
ghost use Rattle.std.specs.Prelude.{◌≡◌, ◌<◌, ◌≤◌, length, replicate};
ghost use Rattle.limits.specs.Limits.{PROCESSES, EDGES};
ghost use Rattle.lists.specs.Lists.{all, any};
ghost use Rattle.plan_index.specs.Index.{laid, Bounded};
ghost use Rattle.log_rows.specs.Rows.{rows_of, with_run};
ghost use Rattle.log_queries.specs.Queries.{edges_at, may_carry, may_run_in, running, running_from};

use crate::readiness::never;
use limits::PROCESSES;
use log_rows::{RUN_AT, Rows, put_run};
use plan_index::{Index, asany_of, into_of, intofirst_of, processes_of};

// Every edge of into[a .. b] may still carry.
fn all_carry(index: &Index, rows: &Rows, a: usize, b: usize, u: u32) -> bool
    requires { (b ≤ EDGES) × Bounded (laid index.now) }
    ensures { result ≡ all (may_carry (laid index.now) (rows_of rows.now) u)
        (edges_at (laid index.now) a b) }
{
    for j in a..b {
        if never(index, rows, into_of(index, j), u) {
            return false;
        }
    }
    true
}

// Some edge of into[a .. b] may still carry.
fn any_carry(index: &Index, rows: &Rows, a: usize, b: usize, u: u32) -> bool
    requires { (b ≤ EDGES) × Bounded (laid index.now) }
    ensures { result ≡ any (may_carry (laid index.now) (rows_of rows.now) u)
        (edges_at (laid index.now) a b) }
{
    for j in a..b {
        if !never(index, rows, into_of(index, j), u) {
            return true;
        }
    }
    false
}

// Process i may run, by what may run of the processes before. (Not one with `ready`: closures are no plainer.)
fn runs(index: &Index, rows: &Rows, i: usize, u: u32) -> bool
    requires { (i < PROCESSES) × Bounded (laid index.now) }
    ensures { result ≡ may_run_in (laid index.now) (rows_of rows.now) u i }
{
    let a = intofirst_of(index, i);
    let b = intofirst_of(index, i + 1);
    if asany_of(index, i) == 0 {
        return all_carry(index, rows, a, b, u);
    }
    any_carry(index, rows, a, b, u)
}

// Says of no process that it may run.
fn clear_run(rows: &mut [u32])
    requires { PROCESSES ≤ length rows.old }
    ensures { rows_of rows.new ≡ with_run (replicate 64 0) (rows_of rows.old) }
{
    rows[RUN_AT..RUN_AT + PROCESSES].fill(0);
}

// Works out which processes may run, upward: 1 where a process may, 0 where it is known inactive, and 0 past the last.
pub fn may_run(index: &Index, u: u32, rows: &mut Rows)
    requires { Bounded (laid index.now) }
    ensures { rows_of rows.new
        ≡ with_run (running (laid index.now) (rows_of rows.old) u) (rows_of rows.old) }
{
    clear_run(rows);
    let processes = processes_of(index);
    for i in 0..processes {
        let x = u32::from(runs(index, rows, i, u));
        put_run(rows, i, x);
    }
}

// Which processes may run: worked out again where a value becomes known at this clock.
pub fn update_may_run(index: &Index, broadcastend: u32, u: u32, rows: &mut Rows)
    requires { Bounded (laid index.now) }
    ensures { rows_of rows.new ≡ with_run (running_from (laid index.now)
        (rows_of rows.old) u broadcastend) (rows_of rows.old) }
{
    if broadcastend == u {
        may_run(index, u, rows);
    }
}
