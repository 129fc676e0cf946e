// Refusals 14 to 19 on a table, combination by combination: in each the entries that it meets are put in one array by
// row, and 14 to 19 are tried on them in turn; the delay of each is read off them too.
ghost use Rattle.std.specs.Prelude.{◌≡◌, ◌^◌, ◌<◌, min};
ghost use Rattle.plan_index.specs.Index.{laid};
ghost use Rattle.checker_table.specs.Combinations.{found_by, found_all, Tabled};
ghost use Rattle.checker_table.specs.Finding.{first_number, finding_of, Early};

use crate::first_refusal::first_found;
use crate::verdict::Found;
use checker_rows::{due_rows, met_rows, miscounts};
use log_queries::last_end;
use log_rows::empty_rows;
use plan_index::{Index, processes_of, rows_of};
use refusals::Refusal;

// What is found in the combination with number c. Where 14 applies the others are not tried.
fn try_combination(index: &Index, table: &[u32], c: u32) -> Found
    requires fact_1 { Tabled (laid index.now) table.now }
    requires fact_2 { c < 2 ^ (laid index.now).conditions }
    ensures { (finding_of result ≡ found_by (laid index.now) table.now c) × Early result.first }
{
    let mut rows = empty_rows();
    let due = due_rows(index, c, &mut rows);
    let m = met_rows(table, c, index, &mut rows);
    let count = m.count;
    if miscounts(&count, &due, rows_of(index)) {
        return Found {
            first: Some(Refusal::DueRows),
            delay: 0,
        };
    }
    let known = m.known;
    let first = first_found(index, &rows, &known);
    let delay = last_end(&rows, processes_of(index));
    Found { first, delay }
}

// The one of two refusals that is tried first; none is tried after every refusal.
fn earlier(first: Option<Refusal>, next: Option<Refusal>) -> Option<Refusal>
    requires { Early first × Early next }
    ensures { (first_number result ≡ min (first_number first) (first_number next)) × Early result }
{
    match (first, next) {
        (Some(a), Some(b)) if a.number() <= b.number() => first,
        (Some(_), None) => first,
        _ => next,
    }
}

// What is found in all combinations: the least of their first refusals, and the greatest of their delays.
pub(crate) fn try_all(index: &Index, table: &[u32], combinations: u32) -> Found
    requires fact_1 { Tabled (laid index.now) table.now }
    requires fact_2 { combinations ≡ 2 ^ (laid index.now).conditions }
    ensures { (finding_of result ≡ found_all (laid index.now) table.now combinations) × Early result.first }
{
    let mut first = None;
    let mut delay: u32 = 0;
    for c in 0u32..combinations {
        let found = try_combination(index, table, c);
        first = earlier(first, found.first);
        delay = delay.max(found.delay);
    }
    Found { first, delay }
}
