// What is found in one combination or in all, and what the checker answers to it.
ghost use Rattle.std.specs.Prelude.{◌≡◌};
ghost use Rattle.refusals.specs.Numbers.{numbered};
ghost use Rattle.checker_table.specs.Finding.{Early, finding_of};
ghost use Rattle.checker_table.specs.Verdict.{verdict_by};

use refusals::Refusal;

// What is found in one combination, or in all: the first of refusals 14 to 19 that applies, and the delay.
#[derive(Clone, Copy)]
pub struct Found {
    pub first: Option<Refusal>,
    pub delay: u32,
}

// The answer to what is found in all combinations, given the stated delay: the first refusal that applies.
pub(crate) fn verdict(found: Found, delay: u64) -> Result<(), Refusal>
    requires { Early found.first }
    ensures { numbered result ≡ verdict_by (finding_of found) delay }
{
    if let Some(refusal) = found.first {
        return Err(refusal);
    }
    if delay != u64::from(found.delay) {
        return Err(Refusal::StatedDelay);
    }
    Ok(())
}
