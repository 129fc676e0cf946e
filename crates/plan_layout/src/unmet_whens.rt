// Which `when`s of a plan's edges a combination leaves unmet.
ghost use Rattle.std.specs.Prelude.{◌≡◌, replicate};
ghost use Rattle.limits.specs.Limits.{CONDITIONS, EDGES};
ghost use Rattle.lists.specs.Lists.{fill};
ghost use Rattle.plan_index.specs.Index.{laid, Bounded};
ghost use Rattle.log_rows.specs.Rows.{rows_of, with_unmet};
ghost use Rattle.plan_layout.specs.Unmet.{differs, unmet_of, value_of, unmet_in};

use limits::CONDITIONS;
use log_rows::{Rows, put_unmet};
use plan_index::{Index, condition_of, edges_of, kind_of};

// 1 where a and b differ, else 0.
fn differ(a: u32, b: u32) -> u32
    ensures { result ≡ differs a b }
{
    u32::from(a != b)
}

// The values of conditions 0 to 5 in a combination: 1 for true, 0 for false.
fn values(combination: u32) -> [u32; CONDITIONS]
    ensures { result ≡ fill CONDITIONS (value_of combination) CONDITIONS }
{
    let mut value = [0u32; CONDITIONS];
    let mut rest = combination;
    for k in 0..CONDITIONS {
        value[k] = rest % 2;
        rest /= 2;
    }
    value
}

// Whether a `when` of this kind is unmet where its condition has this value: 1, or 0. Kinds are numbers, since the one
// array of the plan index holds them so.
fn is_unmet(kind: u32, value: u32) -> u32
    ensures { result ≡ unmet_of kind value }
{
    if kind == 0 {
        return 0;
    }
    if kind == 1 {
        return differ(value, 1);
    }
    differ(value, 0)
}

// Stores in the rows of a combination, by edge, whether it leaves the `when` unmet: 1, or 0. The rows have zeros there
// before.
pub fn find_unmet(index: &Index, combination: u32, rows: &mut Rows)
    requires { Bounded (laid index.now) × ((rows_of rows.old).unmet ≡ replicate EDGES 0) }
    ensures { rows_of rows.new
        ≡ with_unmet (unmet_in (laid index.now) combination) (rows_of rows.old) }
{
    let value = values(combination);
    let edges = edges_of(index);
    for e in 0..edges {
        let when = kind_of(index, e);
        if when != 0 {
            let k = condition_of(index, e);
            put_unmet(rows, e, is_unmet(when, value[k]));
        }
    }
}
