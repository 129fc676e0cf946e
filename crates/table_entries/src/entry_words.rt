// The entries of a table as words, from the numbers that stand for them row by row.
ghost use Rattle.std.specs.Prelude.{◌≡◌, ℕ, ◌+◌, ◌*◌, ◌^◌, ◌<◌, ◌≤◌, get_or, length};
ghost use Rattle.std.proofs.lemmas.List.Edits.{sets};
ghost use Rattle.std.proofs.Math.Seq.{slice};
ghost use Rattle.limits.specs.Limits.{ROWS, ENTRIES};
ghost use Rattle.lists.specs.Lists.{each};
ghost use Rattle.lists.specs.Front.{front};
ghost use Rattle.table_entries.specs.Words.{five, table, Laid};

use limits::{ENTRIES, ROWENDS};

// Writes the five words of an entry from place `at` on.
fn write_entry(words: &mut [u32], at: usize, row: u32, x: u64)
    requires { (at + 5 ≤ length words.old) × (x < 2 ^ 48) }
    ensures { words.new ≡ sets words.old at (five row x) }
{
    words[at] = row;
    words[at + 1] = (x / 4096 % 64) as u32;
    words[at + 2] = (x / 64 % 64) as u32;
    words[at + 3] = (x / 262144) as u32;
    words[at + 4] = (x % 64) as u32;
}

// Writes the words of the entries in list[a .. b], all of one row, each entry at five times its place.
fn write_row(list: &[u64; ENTRIES], a: usize, b: usize, row: u32, words: &mut [u32])
    requires fact_1 { (b ≤ ENTRIES) × (length list.now ≡ ENTRIES) × (5 * b ≤ length words.old) }
    requires fact_2 { ((i : ℕ) → i < b → get_or list.now i 0 < 2 ^ 48) }
    ensures { words.new ≡ sets words.old (5 * a)
        (each (five row) (slice a b list.now)) }
{
    for i in a..b {
        write_entry(words, 5 * i, row, list[i]);
    }
}

// Writes the entries of all rows as words to the front of `words`, five to an entry.
pub fn write(list: &[u64; ENTRIES], ends: &[u32; ROWENDS], rows: usize, words: &mut [u32])
    requires { (rows ≤ ROWS) × Laid list.now ends.now rows × (5 * get_or ends.now rows 0 ≤ length words.old) }
    ensures { words.new ≡ front (table list.now ends.now rows) words.old }
{
    for r in 0..rows {
        write_row(
            list,
            ends[r] as usize,
            ends[r + 1] as usize,
            r as u32,
            words,
        );
    }
}
