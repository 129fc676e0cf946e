// Decimal numbers stored from a place on in lent bytes that have room for them, alone or after a label: each function
// answers where its text ends.
ghost use Rattle.std.specs.Prelude.{[], ◌∷◌, ◌++◌, ◌+◌, ◌<◌};
ghost use Rattle.model.specs.Text.{decimal};
ghost use Rattle.text_lines.specs.Put.{Put};
ghost use Rattle.listing_bytes.specs.Fits.{Fits};
ghost use Rattle.listing_bytes.specs.Digits.{two_digits, four_digits};

use crate::words::put_word;
use text_lines::digit;

// Stores the digit of a number below ten.
pub fn put_digit(out: &mut [u8], at: usize, n: u32) -> usize
    requires { (n < 10) × Fits out.old at ((48 + n) ∷ []) }
    ensures { Put out.old out.new at result ((48 + n) ∷ []) }
{
    out[at] = digit(n);
    at + 1
}

// Stores the two digits of a number below a hundred, with a leading zero.
fn put_two(out: &mut [u8], at: usize, n: u32) -> usize
    requires { (n < 100) × Fits out.old at (two_digits n) }
    ensures { Put out.old out.new at result (two_digits n) }
{
    let end = put_digit(out, at, n / 10);
    put_digit(out, end, n % 10)
}

// Stores the four digits of a number below ten thousand, with leading zeros.
fn put_four(out: &mut [u8], at: usize, n: u32) -> usize
    requires { (n < 10000) × Fits out.old at (four_digits n) }
    ensures { Put out.old out.new at result (four_digits n) }
{
    let end = put_two(out, at, n / 100);
    put_two(out, end, n % 100)
}

// Stores the decimal digits of a number below ten thousand.
fn put_short(out: &mut [u8], at: usize, n: u32) -> usize
    requires { (n < 10000) × Fits out.old at (decimal n) }
    ensures { Put out.old out.new at result (decimal n) }
{
    if n < 10 {
        return put_digit(out, at, n);
    }
    if n < 100 {
        return put_two(out, at, n);
    }
    if n < 1000 {
        let end = put_digit(out, at, n / 100);
        return put_two(out, end, n % 100);
    }
    put_four(out, at, n)
}

// Stores the decimal digits of a number, four at a time.
pub fn put_digits(out: &mut [u8], at: usize, n: u32) -> usize
    requires { Fits out.old at (decimal n) }
    ensures { Put out.old out.new at result (decimal n) }
{
    if n < 10000 {
        return put_short(out, at, n);
    }
    let upper = n / 10000;
    if upper < 10000 {
        let end = put_short(out, at, upper);
        return put_four(out, end, n % 10000);
    }
    let first = put_short(out, at, upper / 10000);
    let second = put_four(out, first, upper % 10000);
    put_four(out, second, n % 10000)
}

// Stores the decimal digits of a number: most have one.
fn put_number(out: &mut [u8], at: usize, n: u32) -> usize
    requires { Fits out.old at (decimal n) }
    ensures { Put out.old out.new at result (decimal n) }
{
    if n < 10 {
        return put_digit(out, at, n);
    }
    put_digits(out, at, n)
}

// Stores a label and the number after it.
// The new form is no plainer: that of `text_lines` tests the room at each byte, which a listing needs nowhere.
pub fn put_labelled(out: &mut [u8], at: usize, label: &[u8], n: u32) -> usize
    requires { Fits out.old at (label.now ++ decimal n) }
    ensures { Put out.old out.new at result (label.now ++ decimal n) }
{
    let end = put_word(out, at, label);
    put_number(out, end, n)
}
