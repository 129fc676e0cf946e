// The urgency of each process of a plan, in an array.
ghost use Rattle.std.specs.Prelude.{◌≡◌, ◌++◌, ℕ, ◌-◌, ◌<◌, ◌≤◌, length, replicate};
ghost use Rattle.limits.specs.Limits.{PROCESSES, TICKS};
ghost use Rattle.plan.specs.Numbers.{ticks_at, from_at, to_at};
ghost use Rattle.plan.specs.Tests.{at};
ghost use Rattle.plan_order.specs.Urgency.{Upward, after, urgencies_of};

use crate::by_weight::number_at;
use arrays::zeros;
use limits::PROCESSES;
use plan::{Edge, Process};

// The greatest urgency among those that the edges out of process i lead to, 0 if there are none.
fn greatest_after(edges: &[Edge], urgency: &[u32], i: u32) -> u32
    ensures { result ≡ after (from_at edges.now) (to_at edges.now) (length edges.now)
        (at urgency.now) i }
{
    let mut most: u32 = 0;
    for e in edges {
        if e.from == i {
            most = most.max(number_at(urgency, e.to));
        }
    }
    most
}

// The urgency of each process, from the last one down: its ticks and the greatest urgency among those its edges lead
// to. Zeros stand behind them.
pub(crate) fn urgencies(processes: &[Process], edges: &[Edge]) -> [u32; PROCESSES]
    requires fact_1 { length processes.now ≤ PROCESSES }
    requires fact_2 { ((i : ℕ) → i < length processes.now → ticks_at processes.now i ≤ TICKS) }
    requires fact_3 { Upward (from_at edges.now) (to_at edges.now) (length edges.now) }
    ensures { result ≡ urgencies_of (ticks_at processes.now) (from_at edges.now) (to_at edges.now)
        (length edges.now) 0 (length processes.now)
        ++ replicate (PROCESSES - length processes.now) 0 }
{
    let mut urgency = zeros::<PROCESSES>();
    for i in (0..processes.len()).rev() {
        let later = greatest_after(edges, &urgency, i as u32);
        urgency[i] = processes[i].ticks + later;
    }
    urgency
}
