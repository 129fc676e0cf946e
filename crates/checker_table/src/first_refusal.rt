// The first of refusals 15 to 19 that applies in one combination.
ghost use Rattle.std.specs.Prelude.{◌≡◌};
ghost use Rattle.checker_table.specs.Finding.{first_number, Early};
ghost use Rattle.plan_index.specs.Index.{laid};
ghost use Rattle.log_rows.specs.Rows.{rows_of};
ghost use Rattle.checker_table.specs.FirstRefusal.{first_in, Tried};

use checker_frames::share_byte;
use checker_inputs::too_early;
use checker_rules::{off_slot, overlap, uses_unknown};
use limits::ROWS;
use log_rows::Rows;
use plan_index::Index;
use refusals::Refusal;

// The first of refusals 15 to 19 that applies in a combination. `rows` has its met entries and its
// active processes, `known` the known bits of the met columns.
pub(crate) fn first_found(index: &Index, rows: &Rows, known: &[u32; ROWS]) -> Option<Refusal>
    requires { Tried (laid index.now) (rows_of rows.now) }
    ensures { (first_number result ≡ first_in (laid index.now) (rows_of rows.now) known.now) × Early result }
{
    if uses_unknown(index, rows, known) {
        return Some(Refusal::UnknownValue);
    }
    if too_early(index, rows) {
        return Some(Refusal::EarlyStart);
    }
    if off_slot(index, rows) {
        return Some(Refusal::OffSlot);
    }
    if overlap(index, rows) {
        return Some(Refusal::Overlap);
    }
    if share_byte(index, rows) {
        return Some(Refusal::SharedByte);
    }
    None
}
