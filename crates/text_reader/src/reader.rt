// The reader of plan texts.
ghost use Rattle.model.specs.Text.{AnswersText};
ghost use Rattle.text_reader.specs.Answer.{reading_of};

use crate::line_runs::{read_conditions, read_edges, read_processes, read_slots};
use limits::TEXT;
use plan::{Plan, empty};
use plan_refusals::refuse;
use refusals::Refusal;
use text_scanner::plan_line;

// The plan that a text says, of any bytes, with refusals 1 to 9. It starts empty and is filled with one kind of line
// after another.
pub fn read_plan(text: &[u8]) -> Result<Plan, Refusal>
    ensures { AnswersText text.now (reading_of result) }
{
    if TEXT < text.len() {
        return Err(Refusal::PlanText);
    }
    let Some((line, i)) = plan_line(text, 0) else {
        return Err(Refusal::PlanText);
    };
    let mut plan = empty();
    plan.line = line;
    let s = read_slots(text, i, plan);
    let q = read_processes(text, s.next, s.plan);
    let c = read_conditions(text, q.next, q.plan);
    let e = read_edges(text, c.next, c.plan);
    if e.next < text.len() {
        return Err(Refusal::PlanText);
    }
    refuse(e.plan)?;
    Ok(e.plan)
}
