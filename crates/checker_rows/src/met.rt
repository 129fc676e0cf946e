// One combination of a table under check: its met entries by row, and whether each row is met as often as it is due.
ghost use Rattle.std.specs.Prelude.{◌≡◌, ◌+◌, ◌%◌, ◌<◌, ◌≤◌, get_or, length};
ghost use Rattle.limits.specs.Limits.{ROWS, LASTTICK};
ghost use Rattle.plan_index.specs.Index.{laid, Bounded};
ghost use Rattle.log_rows.specs.Rows.{rows_of};
ghost use Rattle.checker_rows.specs.MetRows.{entry_from, one_more, counted, column, after, after_entry};
ghost use Rattle.checker_rows.specs.MetRows.{met_rows, with_met, NoneMet, Rowed};
ghost use Rattle.checker_rows.specs.Due.{miscounted_by};

use arrays::{wide, zeros};
use limits::ROWS;
use log_rows::{Rows, put_comes, put_place};
use plan_index::{Index, span_of};

// The met entries of a combination, by row: how many there are (0, 1, or 2 for more), and the known bits of the last
// one's column; 0 where none is met.
#[derive(Clone, Copy)]
pub struct MetRows {
    pub count: [u32; ROWS],
    pub known: [u32; ROWS],
}

// One more of what is counted as 0, 1, or 2 for more.
fn count_up(n: u32) -> u32
    ensures { result ≡ one_more n }
{
    if n != 0 {
        return 2;
    }
    1
}

// Puts the entry whose five words begin at table[at] into the arrays at its row if combination c meets it: its values
// are those of c at its known bits.
fn put_entry(
    table: &[u32],
    at: usize,
    c: u32,
    index: &Index,
    count: &mut [u32; ROWS],
    known: &mut [u32; ROWS],
    rows: &mut Rows,
)
    requires { (at + 5 ≤ length table.now) × (get_or table.now at 0 < ROWS)
        × (get_or table.now (at + 3) 0 ≤ LASTTICK) × Bounded (laid index.now) }
    ensures { (count.new ≡ after counted c (entry_from table.now at) count.old)
        × (known.new ≡ after column c (entry_from table.now at) known.old)
        × (rows_of rows.new ≡ after_entry (laid index.now).span c
        (entry_from table.now at) (rows_of rows.old)) }
{
    let bits = table[at + 1];
    if table[at + 2] != c & bits {
        return;
    }
    let row = wide(table[at]);
    count[row] = count_up(count[row]);
    known[row] = bits;
    put_comes(rows, row, table[at + 3] + span_of(index, row) + 1);
    put_place(rows, row, table[at + 4]);
}

// The met entries of the combination with number c, by row: in `rows`, where none is yet, the clock at which each row
// is over (its tick, plus what it lasts, plus 1) and its place.
pub fn met_rows(table: &[u32], c: u32, index: &Index, rows: &mut Rows) -> MetRows
    requires fact_1 { (length table.now % 5 ≡ 0) × Rowed table.now × Bounded (laid index.now) }
    requires fact_2 { NoneMet (rows_of rows.old) }
    ensures { (result ≡ met_rows table.now c) × (rows_of rows.new
        ≡ with_met table.now c (laid index.now).span (rows_of rows.old)) }
{
    let mut count = zeros::<ROWS>();
    let mut known = zeros::<ROWS>();
    for i in 0..table.len() / 5 {
        put_entry(table, i * 5, c, index, &mut count, &mut known, rows);
    }
    MetRows { count, known }
}

// Whether some row is met another number of times than it is due (refusal 14).
pub fn miscounts(count: &[u32; ROWS], due: &[u32; ROWS], rows: usize) -> bool
    requires { rows ≤ ROWS }
    ensures { result ≡ miscounted_by count.now due.now rows }
{
    for r in 0..rows {
        if count[r] != due[r] {
            return true;
        }
    }
    false
}
