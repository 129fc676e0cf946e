// Checks a table of more than 12,672 entries, one for each row and combination, lent as bytes: refusal 13, or else 14.
ghost use Rattle.std.specs.Prelude.{◌≡◌, ◌+◌, ◌%◌, ◌<◌, ◌≤◌, length};
ghost use Rattle.limits.specs.Limits.{TABLEWORDS};
ghost use Rattle.lists.specs.Lists.{any};
ghost use Rattle.model.specs.Firmware.{words_of};
ghost use Rattle.model.specs.Refusals.{nothing, plan_refusal};
ghost use Rattle.model.specs.Table.{entries_of};
ghost use Rattle.model.specs.Checking.{table_refusal};
ghost use Rattle.plan.specs.Memory.{lines};
ghost use Rattle.plan_index.specs.Index.{laid, Bounded};
ghost use Rattle.checker_rows.specs.MetRows.{entry_from};
ghost use Rattle.checker_rows.specs.RowOrder.{RowOrder};
ghost use Rattle.refusals.specs.Numbers.{numbered};
ghost use Rattle.checker_table.specs.Verdict.{answer_of};
ghost use Rattle.checker_rules.specs.EntryForm.{is_ill_formed};

use bitset::combinations_of;
use c_words::entry_of;
use checker_rules::ill_formed;
use plan::Plan;
use plan_index::{Index, conditions_of};
use plan_layout::of_plan;
use refusals::Refusal;

// Whether refusal 13 applies to the entry whose five words begin at word `at` of the bytes.
fn ill_formed_at(bytes: &[u8], at: usize, index: &Index, combinations: u32) -> bool
    requires { (at + 5 ≤ length (words_of bytes.now)) × Bounded (laid index.now) × RowOrder (laid index.now) }
    ensures { result ≡ is_ill_formed (laid index.now) combinations
        (entry_from (words_of bytes.now) at) }
{
    let five = entry_of(bytes, at);
    ill_formed(&five, 0, index, combinations)
}

// Refusal 13 on a table of n words, entry by entry. `combinations` is how many combinations there are.
fn some_ill_formed(bytes: &[u8], n: usize, index: &Index, combinations: u32) -> bool
    requires { (n ≡ length (words_of bytes.now)) × (n % 5 ≡ 0) × Bounded (laid index.now)
        × RowOrder (laid index.now) }
    ensures { result ≡ any (is_ill_formed (laid index.now) combinations)
        (entries_of (words_of bytes.now)) }
{
    for i in 0..n / 5 {
        if ill_formed_at(bytes, i * 5, index, combinations) {
            return true;
        }
    }
    false
}

// Checks a table of more than 12,672 entries, n words in fives: 13, or else 14.
pub(crate) fn check_many(p: Plan, bytes: &[u8], n: usize, delay: u64) -> Result<(), Refusal>
    requires fact_1 { plan_refusal (lines p) ≡ nothing }
    requires fact_2 { (n ≡ length (words_of bytes.now)) × (n % 5 ≡ 0) × (TABLEWORDS < n) }
    ensures { numbered result ≡ answer_of (table_refusal (lines p) (words_of bytes.now) delay) }
{
    let index = of_plan(p);
    let combinations = combinations_of(conditions_of(&index));
    if some_ill_formed(bytes, n, &index, combinations) {
        return Err(Refusal::EntryForm);
    }
    Err(Refusal::DueRows)
}
