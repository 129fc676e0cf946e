// The text of a plan: one line writer goes through the plan line and the lines of each kind.
// Document 01: "The line writer holds the output bytes and how far they are filled."
ghost use Rattle.std.specs.Prelude.{◌≡◌};
ghost use Rattle.lists.specs.Lists.{each};
ghost use Rattle.model.specs.Refusals.{nothing, plan_refusal};
ghost use Rattle.model.specs.Text.{plan_line, print};
ghost use Rattle.plan.specs.Memory.{lines};
ghost use Rattle.text_lines.specs.Line.{put_on};
ghost use Rattle.text_lines.specs.Put.{Counts, Put};

use crate::lines::{Line, put_plan_line};
use crate::runs::put_lines;
use plan::Plan;
use text_lines::{Writer, filled, start};

// The line writer once it has the plan line.
fn plan_line(w: &mut Writer<'_>, p: Plan)
    requires { Counts w.old.at (plan_line (lines p).plan) }
    ensures { w.new ≡ put_on w.old (plan_line (lines p).plan) }
{
    let at = w.at;
    w.at = put_plan_line(&mut *w.out, at, p);
}

// The line writer once it has lines of one kind.
fn lines_of<L: Line>(w: &mut Writer<'_>, lines: &[L])
    requires { Counts w.old.at (each L.line lines.now) }
    ensures { w.new ≡ put_on w.old (each L.line lines.now) }
{
    let at = w.at;
    w.at = put_lines(&mut *w.out, at, lines);
}

// Puts the text of a plan that passes refusals 2 to 9, through the line writer.
pub(crate) fn put_plan(out: &mut [u8], p: Plan) -> usize
    requires { plan_refusal (lines p) ≡ nothing }
    ensures { Put out.old out.new 0 result (print (lines p)) }
{
    let mut w = start(out, 0);
    plan_line(&mut w, p);
    lines_of(&mut w, &p.slot[..p.slots]);
    lines_of(&mut w, &p.process[..p.processes]);
    lines_of(&mut w, &p.condition[..p.conditions]);
    lines_of(&mut w, &p.edge[..p.edges]);
    filled(w)
}
