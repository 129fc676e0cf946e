// The row query: a row's entries as the part of the lent table that holds them.
// Document 01: "A row's entries are handed back as the part of the lent table holding them"
#![tactic(auto)]

ghost use Rattle.std.specs.Prelude.{◌≡◌, ℕ, ◌+◌, ◌<◌, ◌≤◌, List, drop};
ghost use Rattle.model.specs.Table.{entries_of};
ghost use Rattle.model.specs.Lookup.{before_row, run_of_row, row_start, row_part};
ghost use Rattle.kernel_rows.specs.Part.{words_on};
ghost use Rattle.kernel_rows.specs.RowRange.{RowsOf, RangeOf};

use std::ops::Range;

// How many of n entries stand before the first of a row; all n where no entry is of that row.
fn entries_before<F: Fn(usize) -> u32>(n: usize, row: u32, row_of: &F) -> usize
    requires { (i : ℕ) → i < n → F.pre row_of.now i }
    ensures value { (words : List ℕ) → RowsOf (F.post row_of.now) n words → result ≡ before_row row (entries_of words) }
    ensures upper_bound { result ≤ n }
{
    for i in 0..n {
        if row_of(i) == row {
            return i;
        }
    }
    n
}

// How many of n entries are of a row and follow one another from entry `first` on.
fn entries_from<F: Fn(usize) -> u32>(n: usize, first: usize, row: u32, row_of: &F) -> usize
    requires before { first ≤ n }
    requires callable { (i : ℕ) → i < n → F.pre row_of.now i }
    ensures value { (words : List ℕ) → RowsOf (F.post row_of.now) n words
        → result ≡ run_of_row row (drop first (entries_of words)) }
    ensures result_in_bounds { first + result ≤ n }
{
    for i in first..n {
        if row_of(i) != row {
            return i - first;
        }
    }
    n - first
}

// The entries of a row among n entries, of which `row_of` tells each one's row: from the first entry of that row to the
// next of another row.
pub fn row_range<F: Fn(usize) -> u32>(n: usize, row: u32, row_of: &F) -> Range<usize>
    requires { (i : ℕ) → i < n → F.pre row_of.now i }
    ensures value { (words : List ℕ) → RowsOf (F.post row_of.now) n words → RangeOf words row result.start result.end }
    ensures result_in_bounds { (result.start ≤ result.end) × (result.end ≤ n) }
{
    let first = entries_before(n, row, row_of);
    let count = entries_from(n, first, row, row_of);
    first..first + count
}

// The entries of a row, as the part of the lent table that holds them: from the first entry of that row to the next of
// another row.
// It is empty, at the front of the table, where there are none. Up to four stray last words are ignored.
pub fn row_entries<'a>(table: &'a [u32], row: u32) -> &'a [u32]
    ensures place { result.ref_ptr ≡ words_on table.entry.ref_ptr (row_start table.now row) }
    ensures words { result.now ≡ row_part table.now row }
{
    let entries = row_range(table.len() / 5, row, &|i| table[i * 5]);
    if entries.is_empty() {
        return &table[..0];
    }
    &table[entries.start * 5..entries.end * 5]
}
