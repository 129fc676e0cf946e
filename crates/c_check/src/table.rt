// The checker over bytes: a start table lent as bytes of any length, four bytes a word, the lowest first. A table of
// more than 12,672 entries, one for each row and combination, needs no trying of its combinations: refusal 14 applies
// where 12 and 13 do not.
ghost use Rattle.std.specs.Prelude.{◌≡◌, ◌≤◌, length};
ghost use Rattle.limits.specs.Limits.{TABLEWORDS};
ghost use Rattle.model.specs.Firmware.{words_of};
ghost use Rattle.model.specs.Refusals.{nothing, plan_refusal};
ghost use Rattle.model.specs.Checking.{table_refusal};
ghost use Rattle.plan.specs.Memory.{lines};
ghost use Rattle.refusals.specs.Numbers.{numbered};
ghost use Rattle.checker_table.specs.Verdict.{answer_of};

use crate::many_entries::check_many;
use c_words::{entry_words, read_words};
use checker_table::check_words;
use limits::TABLEWORDS;
use plan::Plan;
use refusals::Refusal;

// Checks a table of at most 12,672 entries: its n words are copied and checked.
fn check_few(p: Plan, bytes: &[u8], n: usize, delay: u64) -> Result<(), Refusal>
    requires fact_1 { plan_refusal (lines p) ≡ nothing }
    requires fact_2 { (n ≡ length (words_of bytes.now)) × (n ≤ TABLEWORDS) }
    ensures { numbered result ≡ answer_of (table_refusal (lines p) (words_of bytes.now) delay) }
{
    let mut words = entry_words();
    read_words(bytes, 0, &mut words[..n]);
    check_words(p, &words[..n], delay)
}

// Checks any bytes as a start table, words of four bytes, the lowest first, with the delay stated for it, for a plan in
// which refusals 2 to 9 find nothing.
pub(crate) fn check_bytes(p: Plan, bytes: &[u8], delay: u64) -> Result<(), Refusal>
    requires { plan_refusal (lines p) ≡ nothing }
    ensures { numbered result ≡ answer_of (table_refusal (lines p) (words_of bytes.now) delay) }
{
    let n = c_words::how_many(bytes);
    if n % 5 != 0 {
        return Err(Refusal::WordCount);
    }
    if n <= TABLEWORDS {
        return check_few(p, bytes, n, delay);
    }
    check_many(p, bytes, n, delay)
}
