// What the ends of the rows of a log in memory say of one combination: which conditions are known, and when the last
// process ends.
ghost use Rattle.std.specs.Prelude.{◌≡◌, ◌+◌, ◌<◌, ◌≤◌, length};
ghost use Rattle.limits.specs.Limits.{CONDITIONS, PROCESSES};
ghost use Rattle.log_rows.specs.Rows.{rows_of};
ghost use Rattle.log_queries.specs.Reading.{known_by, last_end_by};

use crate::readiness::came;
use bitset::with_bit;
use limits::CONDITIONS;
use log_rows::{Rows, comes_of};

// The mask of six conditions whose values have arrived by the clock, condition 0 the lowest bit, with no loop.
fn six_known(rows: &[u32], base: usize, u: u32) -> u32
    requires { base + CONDITIONS ≤ length rows.now }
    ensures { (result ≡ known_by rows.now base CONDITIONS u) × (result < 64) }
{
    let a = u32::from(came(rows[base], u));
    let b = u32::from(came(rows[base + 1], u));
    let c = u32::from(came(rows[base + 2], u));
    let d = u32::from(came(rows[base + 3], u));
    let e = u32::from(came(rows[base + 4], u));
    let f = u32::from(came(rows[base + 5], u));
    a + b * 2 + c * 4 + d * 8 + e * 16 + f * 32
}

// The mask of the conditions whose values have arrived by the clock, condition 0 the lowest bit. The row of condition 0
// stands at `base`.
pub fn known(rows: &[u32], base: usize, conditions: usize, u: u32) -> u32
    requires { (base + conditions ≤ length rows.now) × (conditions ≤ CONDITIONS) }
    ensures { (result ≡ known_by rows.now base conditions u) × (result < 64) }
{
    if conditions == CONDITIONS {
        return six_known(rows, base, u);
    }
    let mut mask: u32 = 0;
    for k in (0..conditions).rev() {
        mask = with_bit(mask, came(rows[base + k], u));
    }
    mask
}

// The delay of a combination: the tick at which the last of the processes ends, 0 if none is placed. The rows of the
// processes come first.
pub fn last_end(rows: &Rows, processes: usize) -> u32
    requires { processes ≤ PROCESSES }
    ensures { result ≡ last_end_by (rows_of rows.now).comes processes }
{
    let mut most: u32 = 0;
    for i in 0..processes {
        most = most.max(comes_of(rows, i));
    }
    most.saturating_sub(1)
}
