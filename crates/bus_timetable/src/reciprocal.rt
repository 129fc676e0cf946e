// The reciprocal of a round, found once for a plan, by doubling: how often the round lies in 2 to the 31 less 1 ticks.
// By it the rounds in a number of ticks are a product in place of a quotient.
ghost use Rattle.std.specs.Prelude.{◌≡◌, ℕ, ◌+◌, ◌≤◌, ◌<◌};
ghost use Rattle.limits.specs.Limits.{ROUNDTICKS};
ghost use Rattle.bus_timetable.specs.Bus.{SCALE, Shared, reciprocal_of};

// How often a round lies in a number of ticks, and what is left of them.
#[derive(Clone, Copy)]
struct Share {
    whole: u32,
    rest: u32,
}

// The share of twice as many ticks and one more.
fn doubled(round: u32, s: Share) -> Share
    requires { (s.rest < round) × (round ≤ ROUNDTICKS) × (s.whole + s.whole < SCALE) }
    ensures { (v : ℕ) → Shared round v s → Shared round (v + v + 1) result }
{
    let whole = s.whole + s.whole;
    let rest = s.rest + s.rest + 1;
    if rest < round {
        return Share { whole, rest };
    }
    Share {
        whole: whole + 1,
        rest: rest - round,
    }
}

// The reciprocal of a round.
pub(crate) fn find_reciprocal(round: u32) -> u32
    requires { (0 < round) × (round ≤ ROUNDTICKS) }
    ensures { result ≡ reciprocal_of round }
{
    let mut s = Share { whole: 0, rest: 0 };
    for _turn in 0u32..31 {
        s = doubled(round, s);
    }
    s.whole
}
