// Refusal 13 of one entry of a start table.
ghost use Rattle.std.specs.Prelude.{◌≡◌, ◌+◌, ◌≤◌, length};
ghost use Rattle.plan_index.specs.Index.{laid, Bounded};
ghost use Rattle.checker_rows.specs.RowOrder.{RowOrder};
ghost use Rattle.checker_rows.specs.MetRows.{entry_from};
ghost use Rattle.checker_rules.specs.EntryForm.{is_local_row, is_ill_formed};

use arrays::wide;
use limits::{LASTPLACE, LASTTICK};
use plan_index::{Index, conditionrow_of, processes_of, remote_of, rows_of};

// Whether a row is that of an edge within one node.
fn is_local(index: &Index, row: usize) -> bool
    requires { Bounded (laid index.now) × RowOrder (laid index.now) }
    ensures { result ≡ is_local_row (laid index.now) row }
{
    let processes = processes_of(index);
    if row < processes {
        return false;
    }
    if row < conditionrow_of(index) {
        return remote_of(index, row - processes) == 0;
    }
    false
}

// Whether refusal 13 applies to the entry whose five words begin at table[at]. `combinations` is how many combinations
// there are.
pub fn ill_formed(table: &[u32], at: usize, index: &Index, combinations: u32) -> bool
    requires { (at + 5 ≤ length table.now) × Bounded (laid index.now) × RowOrder (laid index.now) }
    ensures { result ≡ is_ill_formed (laid index.now) combinations
        (entry_from table.now at) }
{
    let row = wide(table[at]);
    if rows_of(index) <= row {
        return true;
    }
    if is_local(index, row) {
        return true;
    }
    let known = table[at + 1];
    if combinations <= known {
        return true;
    }
    let values = table[at + 2];
    if values & known != values {
        return true;
    }
    if LASTTICK < table[at + 3] {
        return true;
    }
    let place = table[at + 4];
    if LASTPLACE < place {
        return true;
    }
    if row < processes_of(index) {
        return 0 < place;
    }
    false
}
