// The broadcasts of a slot: those of its node that are ready and not sent, as a mask, and what the slot takes of them,
// lowest condition number first.
ghost use Rattle.std.specs.Prelude.{◌≡◌, ◌<◌, ◌≤◌};
ghost use Rattle.limits.specs.Limits.{CONDITIONS, CONDITIONROW};
ghost use Rattle.lists.specs.Lists.{any, below};
ghost use Rattle.bitset.specs.Masks.{mask_from};
ghost use Rattle.plan_index.specs.Index.{laid, Bounded};
ghost use Rattle.log_rows.specs.Rows.{rows_of};
ghost use Rattle.planner_sends.specs.NextSends.{Timed};
ghost use Rattle.planner_sends.specs.Pending.{ready_to_broadcast, waits_to_broadcast, Broadcasts};

use bitset::{how_many, is_empty, lowest, without_lowest};
use log_queries::came;
use log_rows::{Rows, comes_of, put_comes, put_place};
use plan_index::{Index, conditionrow_of, decider_of, decides_of};

// The broadcast of condition k is ready, and is not sent.
fn ready_to_broadcast(index: &Index, rows: &Rows, k: usize, u: u32) -> bool
    requires { (k < CONDITIONS) × Bounded (laid index.now) }
    ensures { result ≡ ready_to_broadcast (laid index.now) (rows_of rows.now) u k }
{
    let d = decider_of(index, k);
    comes_of(rows, conditionrow_of(index) + k) == 0 && came(comes_of(rows, d), u)
}

// The broadcasts of node n that are ready and not sent, as a mask: of the conditions that its processes decide, the
// lowest first.
pub fn pending_broadcasts(index: &Index, rows: &Rows, n: usize, u: u32) -> u32
    requires { (n < (laid index.now).slots) × Bounded (laid index.now) × Timed (laid index.now) }
    ensures { result ≡ mask_from (waits_to_broadcast (laid index.now) (rows_of rows.now) n u) 0
        (laid index.now).conditions }
{
    let mut mask: u32 = 0;
    let mut left = decides_of(index, n);
    while left != 0 {
        let k = lowest(left) as usize;
        let rest = without_lowest(left);
        if ready_to_broadcast(index, rows, k, u) {
            mask += left - rest;
        }
        left = rest;
    }
    mask
}

// Whether node n has a broadcast that is ready and not sent.
pub(crate) fn has_broadcast(index: &Index, rows: &Rows, n: usize, u: u32) -> bool
    requires { (n < (laid index.now).slots) × Bounded (laid index.now) × Timed (laid index.now) }
    ensures { result ≡ any (waits_to_broadcast (laid index.now) (rows_of rows.now) n u)
        (below (laid index.now).conditions) }
{
    !is_empty(pending_broadcasts(index, rows, n, u))
}

// Bytes used so far, and whether a ready item was not taken.
#[derive(Clone, Copy)]
pub struct Taken {
    pub used: u32,
    pub short: bool,
}

// The slot takes the broadcasts of a mask, the lowest condition first, one byte each, as far as there is room.
pub fn take_broadcasts(
    mask: u32,
    conditionrow: usize,
    room: u32,
    end: u32,
    rows: &mut Rows,
) -> Taken
    requires { (mask < 64) × (conditionrow ≤ CONDITIONROW) }
    ensures { Broadcasts mask conditionrow room end (rows_of rows.old) result
        (rows_of rows.new) }
{
    let n = how_many(mask);
    let fits = n.min(room);
    let mut m = mask;
    for used in 0..fits {
        let r = conditionrow + lowest(m) as usize;
        put_comes(rows, r, end);
        put_place(rows, r, used);
        m = without_lowest(m);
    }
    Taken {
        used: fits,
        short: room < n,
    }
}
