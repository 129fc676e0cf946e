// The plan writer: a plan in memory as plan text in lent bytes.
ghost use Rattle.std.specs.Prelude.{◌≡◌, ltb, length};
ghost use Rattle.model.specs.Refusals.{nothing, plan_refusal};
ghost use Rattle.model.specs.Text.{print, write_plan, bytes_after};
ghost use Rattle.plan.specs.Memory.{lines};
ghost use Rattle.refusals.specs.Numbers.{numbered};
ghost use Rattle.text_lines.specs.Answer.{answer_of};

use crate::plan_text::put_plan;
use plan::Plan;
use plan_refusals::refuse;
use refusals::Refusal;

// How many bytes that text has: it is put into none of the lent bytes.
fn needed(out: &mut [u8], p: Plan) -> usize
    requires { plan_refusal (lines p) ≡ nothing }
    ensures { (result ≡ length (print (lines p))) × (out.new ≡ out.old) }
{
    put_plan(&mut out[..0], p)
}

// 10: "a written text [needs] more bytes, than lent".
fn lacks(lent: usize, needed: usize) -> bool
    ensures { result ≡ ltb lent needed }
{
    lent < needed
}

// Writes a plan as plan text to the front of the lent bytes: how many bytes were written. Refusals 2 to 9 are tried
// first, then 10; a refusal leaves the bytes unchanged.
pub fn write_plan(p: Plan, out: &mut [u8]) -> Result<usize, Refusal>
    ensures answer { numbered result ≡ answer_of (write_plan (lines p) (length out.old)) }
    ensures bytes { out.new ≡ bytes_after (write_plan (lines p) (length out.old))
        out.old }
{
    refuse(p)?;
    let n = needed(out, p);
    if lacks(out.len(), n) {
        return Err(Refusal::LentRoom);
    }
    Ok(put_plan(out, p))
}
