// The column of an entry's line: which conditions are named, and with which values.
ghost use Rattle.std.specs.Prelude.{◌≤◌, ◌<◌, length, drop};
ghost use Rattle.limits.specs.Limits.{CONDITIONS};
ghost use Rattle.listing_grammar.specs.Parse.{name_at, column_at};
ghost use Rattle.text_scanner.specs.Place.{Scanned, number};
ghost use Rattle.listing_scanner.specs.Columns.{column, Stepped};

use text_scanner::{field, word};

// A column, whole or as far as it is read: known bits, their values, and the position behind it.
#[derive(Clone, Copy)]
pub struct ColumnSofar {
    pub known: u32,
    pub values: u32,
    pub at: usize,
}

// Condition k named at `at`, with its value.
fn name(text: &[u8], at: usize, k: u32) -> Option<(u32, usize)>
    requires { at ≤ length text.now }
    ensures { Scanned text.now (number result) (name_at k (drop at text.now)) }
{
    if let Some((n, i)) = field(text, at, b" (true ") {
        if n == k {
            return Some((1, i));
        }
        return None;
    }
    let (n, i) = field(text, at, b" (false ")?;
    if n == k {
        return Some((0, i));
    }
    None
}

// The column once condition k is read, whose bit is `bit`: named, or not.
fn step(text: &[u8], s: ColumnSofar, k: u32, bit: u32) -> ColumnSofar
    requires { (s.at ≤ length text.now) × (s.known < bit) × (s.values < bit) × (bit ≤ 32) }
    ensures { Stepped text.now k bit s result }
{
    let at = s.at;
    let Some((v, i)) = name(text, at, k) else {
        return s;
    };
    ColumnSofar {
        known: s.known + bit,
        values: s.values + v * bit,
        at: i,
    }
}

// The column at `at` and the bracket behind it, for a plan of at most six conditions.
pub(crate) fn column(text: &[u8], at: usize, conditions: u32) -> Option<ColumnSofar>
    requires { (at ≤ length text.now) × (conditions ≤ CONDITIONS) }
    ensures { Scanned text.now (column result) (column_at conditions (drop at text.now)) }
{
    let first = word(text, at, b"(when")?;
    let mut s = ColumnSofar {
        known: 0,
        values: 0,
        at: first,
    };
    let mut bit: u32 = 1;
    for k in 0u32..conditions {
        s = step(text, s, k, bit);
        bit = bit * 2;
    }
    s.at = word(text, s.at, b")")?;
    Some(s)
}
