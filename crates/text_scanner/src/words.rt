// Words and numbers of a text at a position. Each answer has the position behind what it finds, and is `None` where
// that does not stand.
ghost use Rattle.std.specs.Prelude.{◌≤◌, length, drop};
ghost use Rattle.text_grammar.specs.Parse.{word_at, digits_to, number_to, field_at, closed_at};
ghost use Rattle.text_scanner.specs.Place.{Scanned, next, number};

use crate::digits::{may_follow, value};

// The word `w` at `at`. Inlined, so that a constant word is compared as one: without, a listing is read by 9 % more
// instructions.
#[inline(always)]
pub fn word(text: &[u8], at: usize, w: &[u8]) -> Option<usize>
    requires { at ≤ length text.now }
    ensures { Scanned text.now (next result) (word_at w.now (drop at text.now)) }
{
    if text[at..].starts_with(w) {
        return Some(at + w.len());
    }
    None
}

// The digits that follow those of `n` at `at`, and the byte `end` behind them.
fn digits(text: &[u8], at: usize, n: u32, end: u8) -> Option<(u32, usize)>
    requires { at ≤ length text.now }
    ensures { Scanned text.now (number result) (digits_to end n (drop at text.now)) }
{
    let mut m = n;
    for i in at..text.len() {
        let b = text[i];
        if b == end {
            return Some((m, i + 1));
        }
        if !may_follow(m, b) {
            return None;
        }
        m = m * 10 + value(b);
    }
    None
}

// The number at `at` and the byte `end` behind it.
pub fn number_to(text: &[u8], at: usize, end: u8) -> Option<(u32, usize)>
    requires { at ≤ length text.now }
    ensures { Scanned text.now (number result) (number_to end (drop at text.now)) }
{
    let &b = text.get(at)?;
    if !b.is_ascii_digit() {
        return None;
    }
    digits(text, at + 1, value(b), end)
}

// The word `w`, then a number and a bracket.
pub fn field(text: &[u8], at: usize, w: &[u8]) -> Option<(u32, usize)>
    requires { at ≤ length text.now }
    ensures { Scanned text.now (number result) (field_at w.now
        (drop at text.now)) }
{
    let i = word(text, at, w)?;
    number_to(text, i, b')')
}

// The word `w`, a number and a bracket, and the word `e`.
pub fn closed(text: &[u8], at: usize, w: &[u8], e: &[u8]) -> Option<(u32, usize)>
    requires { at ≤ length text.now }
    ensures { Scanned text.now (number result) (closed_at w.now e.now
        (drop at text.now)) }
{
    let (n, i) = field(text, at, w)?;
    let j = word(text, i, e)?;
    Some((n, j))
}
