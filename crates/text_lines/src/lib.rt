// Bytes put into lent bytes from a place on, and the line writer. Those that lie within are stored, and all are
// counted: with no bytes lent, a put counts.
// Document 01: "The line writer holds the output bytes and how far they are filled."
#![tactic(auto)]

ghost use Rattle.std.specs.Prelude.{◌≡◌, [], ◌∷◌, ◌++◌, ◌+◌, ◌<◌};
ghost use Rattle.model.specs.Text.{decimal};
ghost use Rattle.text_lines.specs.Put.{Counts, Put};

// Puts one byte.
fn put_byte(out: &mut [u8], at: usize, b: u8) -> usize
    requires { Counts at (b ∷ []) }
    ensures { Put out.old out.new at result (b ∷ []) }
{
    if at < out.len() {
        out[at] = b;
    }
    at + 1
}

// Puts the bytes of a word.
pub fn put_word(out: &mut [u8], at: usize, word: &[u8]) -> usize
    requires { Counts at word.now }
    ensures { Put out.old out.new at result word.now }
{
    let mut end = at;
    for &b in word {
        end = put_byte(out, end, b);
    }
    end
}

// The digit of a number below ten.
pub fn digit(n: u32) -> u8
    requires { n < 10 }
    ensures { result ≡ 48 + n }
{
    (48 + n) as u8
}

// Puts the decimal digits of a number.
fn put_number(out: &mut [u8], at: usize, n: u32) -> usize
    requires { Counts at (decimal n) }
    ensures { Put out.old out.new at result (decimal n) }
{
    if n < 10 {
        return put_byte(out, at, digit(n));
    }
    let end = put_number(out, at, n / 10);
    put_byte(out, end, digit(n % 10))
}

// Puts a label and the number after it.
// The new form is no plainer: that of `listing_bytes` needs room for them, and this one counts what has none.
pub fn put_labelled(out: &mut [u8], at: usize, label: &[u8], n: u32) -> usize
    requires { Counts at (label.now ++ decimal n) }
    ensures { Put out.old out.new at result (label.now ++ decimal n) }
{
    let end = put_word(out, at, label);
    put_number(out, end, n)
}

// The line writer: the output bytes, and how far they are filled.
#[derive(Drop)]
pub struct Writer<'a> {
    pub out: &'a mut [u8],
    pub at: usize,
}

// A line writer that goes on from `at`.
pub fn start<'a>(out: &'a mut [u8], at: usize) -> Writer<'a>
    ensures { (result.out ≡ out.entry) × (result.at ≡ at) }
{
    Writer { out: out, at: at }
}

// How far the output bytes are filled.
pub fn filled<'a>(w: Writer<'a>) -> usize
    ensures { (result ≡ w.entry.at) × (w.exit.0.now ≡ w.entry.out.now) }
{
    w.at
}
