// Words of 32 bits put into lent bytes, four bytes a word, the lowest first.
ghost use Rattle.std.specs.Prelude.{◌≡◌, ◌+◌, ◌*◌, ◌<◌, ◌≤◌, length, get_or, take};
ghost use Rattle.std.proofs.lemmas.List.Edits.{sets};
ghost use Rattle.lists.specs.Front.{front};
ghost use Rattle.c_words.specs.Bytes.{word_bytes, bytes_of};

// Stores the four bytes of a word from place `at` on.
fn put_word(out: &mut [u8], at: usize, word: u32)
    requires { at + 4 ≤ length out.old }
    ensures { out.new ≡ sets out.old at (word_bytes word) }
{
    out[at..at + 4].copy_from_slice(&word.to_le_bytes());
}

// Puts words to the front of lent bytes, four bytes each.
pub fn put_words(words: &[u32], out: &mut [u8])
    requires { 4 * length words.now ≤ length out.old }
    ensures { out.new ≡ front (bytes_of words.now) out.old }
{
    for i in 0..words.len() {
        put_word(out, i * 4, words[i]);
    }
}

// The byte at place i of the bytes of words.
fn byte_at(words: &[u32], i: usize) -> u8
    requires { i < 4 * length words.now }
    ensures { result ≡ get_or (bytes_of words.now) i 0 }
{
    words[i / 4].to_le_bytes()[i % 4]
}

// Puts words to the front of lent bytes, four bytes each, as far as the lent bytes go.
pub fn put_some(words: &[u32], out: &mut [u8])
    ensures { out.new ≡ front (take (length out.old) (bytes_of words.now))
        out.old }
{
    let end = out.len().min(words.len() * 4);
    for i in 0..end {
        out[i] = byte_at(words, i);
    }
}
