// The lines of entries, one after another, read into words.
ghost use Rattle.std.specs.Prelude.{◌≡◌, [], ◌∷◌, ◌+◌, ◌≤◌, length};
ghost use Rattle.std.proofs.lemmas.List.Edits.{sets};
ghost use Rattle.limits.specs.Limits.{PRINTEDWORDS};
ghost use Rattle.model.specs.Table.{entry_words};
ghost use Rattle.listing_scanner.specs.Lines.{entry_of, Few};
ghost use Rattle.listing_reader.specs.Runs.{EntriesRead};

use limits::{PRINTEDENTRIES, PRINTEDWORDS};
use listing_scanner::{Counts, Entry, entry_line};

// Stores the five words of an entry from place `at` on.
fn put_entry(e: Entry, table: &mut [u32; PRINTEDWORDS], at: usize)
    requires { (at + 5 ≤ PRINTEDWORDS) × (length table.old ≡ PRINTEDWORDS) }
    ensures { table.new ≡ sets table.old at (entry_words (entry_of e ∷ [])) }
{
    table[at] = e.row;
    table[at + 1] = e.known;
    table[at + 2] = e.values;
    table[at + 3] = e.tick;
    table[at + 4] = e.place;
}

// Reads the lines of entries from `at` on as words: how many there are, and the position behind them. The listing is
// not of its form where a row stands behind a later one, or where there are more than 3,000 entries.
pub(crate) fn read_entries(
    text: &[u8],
    at: usize,
    counts: Counts,
    table: &mut [u32; PRINTEDWORDS],
) -> Option<(usize, usize)>
    requires { (at ≤ length text.now) × Few counts × (length table.old ≡ PRINTEDWORDS) }
    ensures { EntriesRead text.now at counts table.old table.new result }
{
    let mut next = at;
    let mut count: usize = 0;
    let mut row: u32 = 0;
    while let Some((e, i)) = entry_line(text, next, counts) {
        if e.row < row {
            return None;
        }
        if PRINTEDENTRIES <= count {
            return None;
        }
        put_entry(e, table, 5 * count);
        row = e.row;
        count += 1;
        next = i;
    }
    Some((count, next))
}
