// Words stored from a place on in lent bytes that have room for them: each function answers where its text ends.
ghost use Rattle.std.specs.Prelude.{◌+◌, ◌≤◌, length};
ghost use Rattle.text_lines.specs.Put.{Put};
ghost use Rattle.listing_bytes.specs.Fits.{Fits};

// Stores a word. It is mostly a few known bytes, for which copy_from_slice was tried and takes more instructions: a
// tenth more to store a table.
pub fn put_word(out: &mut [u8], at: usize, word: &[u8]) -> usize
    requires { Fits out.old at word.now }
    ensures { Put out.old out.new at result word.now }
{
    for (i, &b) in word.iter().enumerate() {
        out[at + i] = b;
    }
    at + word.len()
}

// Stores a word of N to 2 N bytes as its first N and its last N, which may overlap. Both are read whole before any is
// stored: a copy straight from the word takes more instructions.
fn put_ends<const N: usize>(out: &mut [u8], at: usize, word: &[u8]) -> usize
    requires { (N ≤ length word.now) × (length word.now ≤ N + N) × Fits out.old at word.now }
    ensures { Put out.old out.new at result word.now }
{
    let rest = word.len() - N;
    let mut first = [0u8; N];
    let mut last = [0u8; N];
    first.copy_from_slice(&word[..N]);
    last.copy_from_slice(&word[rest..]);
    put_word(out, at, &first);
    put_word(out, at + rest, &last)
}

// Stores a word of at least eight bytes: one of at most thirty-two in two parts of one length.
pub fn put_long(out: &mut [u8], at: usize, word: &[u8]) -> usize
    requires { (8 ≤ length word.now) × Fits out.old at word.now }
    ensures { Put out.old out.new at result word.now }
{
    if word.len() <= 16 {
        return put_ends::<8>(out, at, word);
    }
    if word.len() <= 32 {
        return put_ends::<16>(out, at, word);
    }
    put_word(out, at, word)
}
