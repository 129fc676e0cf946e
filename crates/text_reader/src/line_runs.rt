// The runs of lines of one kind: all of them are counted, and as many kept as the plan has room for.
ghost use Rattle.std.specs.Prelude.{ℕ, ◌≤◌, List, length};
ghost use Rattle.std.specs.Borrow.{Bor};
ghost use Rattle.text_reader.specs.Chain.{Answers, Forward, Kept};
ghost use Rattle.text_reader.specs.Run.{slots, processes, conditions, edges, Run};

use plan::Plan;
use text_scanner::{condition, edge, process, slot};

// A plan with the lines of one kind that were read, and the position behind them.
#[derive(Clone, Copy)]
pub struct Filled {
    pub plan: Plan,
    pub next: usize,
}

// The lines from `at` on, as `line` reads each, up to where none stands: how many they are, and the position behind
// them. As many as there is room for are stored at the front of `kept`.
fn read_run<L: Copy, F: Fn(&[u8], usize) -> Option<(L, usize)>>(
    text: &[u8],
    at: usize,
    line: F,
    kept: &mut [L],
) -> (usize, usize)
    requires within { at ≤ length text.now }
    requires callable { (t : Bor (List ℕ)) (i : ℕ) → i ≤ length t.now → F.pre line t i }
    requires forward { Forward (Answers (F.post line) text.now) (length text.now) }
    ensures { Kept (Answers (F.post line) text.now) at kept.old kept.new result.0 result.1 }
{
    let mut count: usize = 0;
    let mut next = at;
    while let Some((x, i)) = line(text, next) {
        if count < kept.len() {
            kept[count] = x;
        }
        count += 1;
        next = i;
    }
    (count, next)
}

// The plan with the slot lines from `at` on: all are counted, and the first 8 kept.
pub(crate) fn read_slots(text: &[u8], at: usize, before: Plan) -> Filled
    requires { at ≤ length text.now }
    ensures { Run slots text.now at before result }
{
    let mut plan = before;
    let (count, next) = read_run(text, at, |text, i| slot(text, i), &mut plan.slot);
    plan.slots = count;
    Filled { plan, next }
}

// The plan with the process lines from `at` on: all are counted, and the first 64 kept.
pub(crate) fn read_processes(text: &[u8], at: usize, before: Plan) -> Filled
    requires { at ≤ length text.now }
    ensures { Run processes text.now at before result }
{
    let mut plan = before;
    let (count, next) = read_run(text, at, |text, i| process(text, i), &mut plan.process);
    plan.processes = count;
    Filled { plan, next }
}

// The plan with the condition lines from `at` on: all are counted, and the first 6 kept.
pub(crate) fn read_conditions(text: &[u8], at: usize, before: Plan) -> Filled
    requires { at ≤ length text.now }
    ensures { Run conditions text.now at before result }
{
    let mut plan = before;
    let (count, next) = read_run(text, at, |text, i| condition(text, i), &mut plan.condition);
    plan.conditions = count;
    Filled { plan, next }
}

// The plan with the edge lines from `at` on: all are counted, and the first 128 kept.
pub(crate) fn read_edges(text: &[u8], at: usize, before: Plan) -> Filled
    requires { at ≤ length text.now }
    ensures { Run edges text.now at before result }
{
    let mut plan = before;
    let (count, next) = read_run(text, at, |text, i| edge(text, i), &mut plan.edge);
    plan.edges = count;
    Filled { plan, next }
}
