// Words of 32 bits read from lent bytes, four bytes a word, the lowest first: so tables and frame lists are lent from
// C.
ghost use Rattle.std.specs.Prelude.{◌≡◌, ◌+◌, ◌*◌, ◌<◌, ◌≤◌, length, get_or, replicate, take, drop};
ghost use Rattle.limits.specs.Limits.{TABLEWORDS};
ghost use Rattle.model.specs.Firmware.{words_of};

use limits::TABLEWORDS;

// How many whole words the bytes hold; stray last bytes are not counted.
pub fn how_many(bytes: &[u8]) -> usize
    ensures { result ≡ length (words_of bytes.now) }
{
    bytes.len() / 4
}

// The word at place i of bytes that hold words.
pub fn word_at(bytes: &[u8], i: usize) -> u32
    requires { i < length (words_of bytes.now) }
    ensures { result ≡ get_or (words_of bytes.now) i 0 }
{
    let at = i * 4;
    u32::from_le_bytes([bytes[at], bytes[at + 1], bytes[at + 2], bytes[at + 3]])
}

// Reads words from place `from` on, as many as are lent to read them into.
pub fn read_words<'a>(bytes: &'a [u8], from: usize, out: &mut [u32])
    requires { from + length out.old ≤ length (words_of bytes.now) }
    ensures { out.new ≡ take (length out.old) (drop from (words_of bytes.now)) }
{
    for i in 0..out.len() {
        let at = from + i;
        out[i] = word_at(bytes, at);
    }
}

// The five words of the entry that begins at word `at` of the bytes.
pub fn entry_of(bytes: &[u8], at: usize) -> [u32; 5]
    requires { at + 5 ≤ length (words_of bytes.now) }
    ensures { result ≡ take 5 (drop at (words_of bytes.now)) }
{
    let mut five = [0u32; 5];
    read_words(bytes, at, &mut five);
    five
}

// The words of 12,672 entries, all 0: no table has more, one entry for each row and combination.
pub fn entry_words() -> [u32; TABLEWORDS]
    ensures { result ≡ replicate TABLEWORDS 0 }
{
    [0u32; TABLEWORDS]
}
