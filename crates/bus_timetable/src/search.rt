// The slot search: the beginning of the round that a tick lies in, carried along, and the first beginning of a slot
// from the tick on. Nothing is divided by the round.
// Document 02, point 4: "nothing in planning may divide, or take a remainder, by anything but a fixed number: carry the
// beginning of the current round along and add to it. The search gives the first beginning of a node's slot at or after
// a tick."
ghost use Rattle.std.specs.Prelude.{◌≡◌, ◌*◌, ◌/◌, ◌≤◌, ◌<◌};
ghost use Rattle.limits.specs.Limits.{ROUNDTICKS};
ghost use Rattle.bus_timetable.specs.Bus.{SCALE, beginning_at, round_beginning_at, reciprocal_of, Carried};

// How many rounds lie in so many ticks, or one less. What divides is 2 to the 31, a number that stands there,
// as a test of the sources asks.
fn rounds_in(ticks: u32, reciprocal: u32) -> u32
    requires { (ticks < SCALE) × (reciprocal < SCALE) }
    ensures { result ≡ ticks * reciprocal / SCALE }
{
    (u64::from(ticks) * u64::from(reciprocal) / 2147483648) as u32
}

// The beginning of the round that a tick lies in, where `begun` is the beginning of a round at or before the tick. In
// the round of `begun` that is a comparison; past it, the rounds between are found with the reciprocal and added.
pub fn round_beginning(round: u32, reciprocal: u32, begun: u32, tick: u32) -> u32
    requires { (0 < round) × (reciprocal ≡ reciprocal_of round) × (tick < SCALE) × Carried round begun tick }
    ensures { result ≡ round_beginning_at round tick }
{
    let gap = tick - begun;
    if gap < round {
        return begun;
    }
    let near = begun + rounds_in(gap, reciprocal) * round;
    if tick - near < round {
        return near;
    }
    near + round
}

// The first beginning, at or after a tick, of a slot that lies `offset` ticks into each round, where `begun` is the
// beginning of the round that the tick lies in.
pub fn first_beginning(round: u32, begun: u32, offset: u32, tick: u32) -> u32
    requires { (0 < round) × (round ≤ ROUNDTICKS) × (offset ≤ ROUNDTICKS) × (tick < SCALE)
        × (begun ≡ round_beginning_at round tick) }
    ensures { result ≡ beginning_at round offset tick }
{
    let gone = tick - begun;
    if gone <= offset {
        return begun + offset;
    }
    begun + (round + offset)
}
