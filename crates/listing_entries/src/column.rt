// The conditions of a column of a table's line, stored from a place on in lent bytes that have room for it.
ghost use Rattle.std.specs.Prelude.{◌≡◌};
ghost use Rattle.limits.specs.Limits.{CONDITIONS};
ghost use Rattle.text_lines.specs.Put.{Put};
ghost use Rattle.listing_bytes.specs.Fits.{Fits};
ghost use Rattle.listing_count.specs.Parts.{value_at, values_from};
ghost use Rattle.listing_entries.specs.Sets.{sets_of};

use limits::CONDITIONS;
use listing_bytes::{put_labelled, put_word};

// Stores condition k of a column, if it is known: the lowest bits of `known` and `values` are its.
fn put_value(out: &mut [u8], at: usize, known: u32, values: u32, k: u32) -> usize
    requires { Fits out.old at (value_at known values k) }
    ensures { Put out.old out.new at result (value_at known values k) }
{
    if known % 2 == 0 {
        return at;
    }
    if values % 2 == 0 {
        let number = put_labelled(out, at, b" (false ", k);
        return put_word(out, number, b")");
    }
    let number = put_labelled(out, at, b" (true ", k);
    put_word(out, number, b")")
}

// Stores the known conditions of a column that the plan has, one by one. A word has no bit past its thirty-second.
fn put_each(out: &mut [u8], at: usize, conditions: usize, known: u32, values: u32) -> usize
    requires { Fits out.old at (values_from conditions known values 0) }
    ensures { Put out.old out.new at result (values_from conditions known values 0) }
{
    let mut end = at;
    let mut x = known;
    let mut v = values;
    for k in 0..conditions {
        end = put_value(out, end, x, v, k as u32);
        x /= 2;
        v /= 2;
        if x == 0 {
            return end;
        }
    }
    end
}

// Stores the conditions 0 to 5 of a column that are known. A loop over them would test how many digits each number has.
fn put_six(out: &mut [u8], at: usize, known: u32, values: u32) -> usize
    requires { Fits out.old at (values_from CONDITIONS known values 0) }
    ensures { Put out.old out.new at result (values_from CONDITIONS known values 0) }
{
    let one = put_value(out, at, known, values, 0);
    let two = put_value(out, one, known / 2, values / 2, 1);
    let three = put_value(out, two, known / 4, values / 4, 2);
    let four = put_value(out, three, known / 8, values / 8, 3);
    let five = put_value(out, four, known / 16, values / 16, 4);
    put_value(out, five, known / 32, values / 32, 5)
}

// How many sets of known conditions a plan has, where it has at most six conditions; otherwise none. By a
// match: a shift was tried, and the compiler moves it into the loop over the lines.
#[tactic(auto, unfolding(crate::specs::Sets::sets_of))]
pub(crate) fn known_sets(conditions: usize) -> u32
    ensures { result ≡ sets_of conditions }
{
    match conditions {
        0 => 1,
        1 => 2,
        2 => 4,
        3 => 8,
        4 => 16,
        5 => 32,
        CONDITIONS => 64,
        _ => 0,
    }
}

// Stores the known conditions of a column that the plan has, by how many sets of known conditions it has.
pub(crate) fn put_values(
    out: &mut [u8],
    at: usize,
    sets: u32,
    conditions: usize,
    known: u32,
    values: u32,
) -> usize
    requires { (sets ≡ sets_of conditions) × Fits out.old at (values_from conditions known values 0) }
    ensures { Put out.old out.new at result (values_from conditions known values 0) }
{
    if known < sets {
        return put_six(out, at, known, values);
    }
    put_each(out, at, conditions, known, values)
}
