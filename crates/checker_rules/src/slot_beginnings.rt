// Refusal 17 of one combination, read off what its met entries leave by row. A row's `comes` is 0 where no entry of the
// row is met, else the met entry's tick plus what the row lasts, plus 1, so that the row starts at the clock
// comes - span, which is its tick plus 1.
ghost use Rattle.std.specs.Prelude.{◌≡◌, ◌<◌, get_or};
ghost use Rattle.limits.specs.Limits.{ROWS};
ghost use Rattle.plan_index.specs.Index.{laid, Bounded};
ghost use Rattle.log_rows.specs.Rows.{rows_of};
ghost use Rattle.checker_rows.specs.MetArrays.{Readable};
ghost use Rattle.bus_timetable.specs.Bus.{beginning_at};
ghost use Rattle.checker_rules.specs.Rules.{row_off, some_off, Slotted, Searchable};

use bus_timetable::{first_beginning, round_beginning};
use log_rows::{Rows, comes_of};
use plan_index::{
    Index, offset_of, processes_of, reciprocal_of, round_of, rows_of, sender_of, span_of,
};

// The first beginning of the slot of node n at or after a tick: the beginning of round 0 is carried on to the tick's
// round.
fn first_from(index: &Index, n: usize, tick: u32) -> u32
    requires { Searchable (laid index.now) n tick }
    ensures { result ≡ beginning_at (laid index.now).round (get_or (laid index.now).offset n 0)
        tick }
{
    let round = round_of(index);
    let begun = round_beginning(round, reciprocal_of(index), 0, tick);
    first_beginning(round, begun, offset_of(index, n), tick)
}

// The item of row r is met at a tick at which its sender's slot does not begin.
fn off(index: &Index, rows: &Rows, r: usize) -> bool
    requires fact_1 { r < ROWS }
    requires fact_2 { Bounded (laid index.now) }
    requires fact_3 { Readable (rows_of rows.now).comes (laid index.now).span }
    requires fact_4 { Slotted (laid index.now) (rows_of rows.now).comes }
    ensures { result ≡ row_off (laid index.now) (rows_of rows.now) r }
{
    let x = comes_of(rows, r);
    if x == 0 {
        return false;
    }
    let tick = x - span_of(index, r) - 1;
    let n = sender_of(index, r);
    first_from(index, n, tick) != tick
}

// Refusal 17: some item's tick is not a beginning of its sender's slot.
pub fn off_slot(index: &Index, rows: &Rows) -> bool
    requires fact_1 { Bounded (laid index.now) }
    requires fact_2 { Readable (rows_of rows.now).comes (laid index.now).span }
    requires fact_3 { Slotted (laid index.now) (rows_of rows.now).comes }
    ensures { result ≡ some_off (laid index.now) (rows_of rows.now) }
{
    let end = rows_of(index);
    for r in processes_of(index)..end {
        if off(index, rows, r) {
            return true;
        }
    }
    false
}
