// The table checker for a plan in which refusals 2 to 9 find nothing: 12 and 13 are tried on the words, then 14 to 19
// in every combination, and 20 on the stated delay.
ghost use Rattle.std.specs.Prelude.{◌≡◌, ◌%◌, length};
ghost use Rattle.lists.specs.Lists.{any};
ghost use Rattle.model.specs.Refusals.{nothing, plan_refusal};
ghost use Rattle.model.specs.Table.{entries_of};
ghost use Rattle.model.specs.Checking.{table_refusal};
ghost use Rattle.plan.specs.Memory.{lines};
ghost use Rattle.plan_index.specs.Index.{laid, Bounded};
ghost use Rattle.refusals.specs.Numbers.{numbered};
ghost use Rattle.checker_rows.specs.RowOrder.{RowOrder};
ghost use Rattle.checker_table.specs.Verdict.{answer_of};
ghost use Rattle.checker_rules.specs.EntryForm.{is_ill_formed};

use crate::combinations::try_all;
use crate::verdict::verdict;
use bitset::combinations_of;
use checker_rules::ill_formed;
use plan::Plan;
use plan_index::{Index, conditions_of};
use plan_layout::of_plan;
use refusals::Refusal;

// Refusal 13: some entry has no such row, is a local edge's, has known bits without condition, value bits outside the
// known, a tick above 999,999,999, a place above 63, or a process's place not 0. `combinations` is how many
// combinations there are.
fn some_ill_formed(table: &[u32], index: &Index, combinations: u32) -> bool
    requires { (length table.now % 5 ≡ 0) × Bounded (laid index.now) × RowOrder (laid index.now) }
    ensures { result ≡ any (is_ill_formed (laid index.now) combinations)
        (entries_of table.now) }
{
    for i in 0..table.len() / 5 {
        if ill_formed(table, i * 5, index, combinations) {
            return true;
        }
    }
    false
}

// Checks a table and any stated delay for a plan in which refusals 2 to 9 find nothing.
pub fn check_words(p: Plan, table: &[u32], delay: u64) -> Result<(), Refusal>
    requires { plan_refusal (lines p) ≡ nothing }
    ensures { numbered result ≡ answer_of (table_refusal (lines p) table.now delay) }
{
    if table.len() % 5 != 0 {
        return Err(Refusal::WordCount);
    }
    let index = of_plan(p);
    let combinations = combinations_of(conditions_of(&index));
    if some_ill_formed(table, &index, combinations) {
        return Err(Refusal::EntryForm);
    }
    verdict(try_all(&index, table, combinations), delay)
}
