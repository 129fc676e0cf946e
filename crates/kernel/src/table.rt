// The kernel lookup: which entry of a table a unit takes up next.
ghost use Rattle.std.specs.Prelude.{Ok, ◌≡◌};
ghost use Rattle.model.specs.Refusals.{nothing, plan_refusal};
ghost use Rattle.model.specs.Lookup as m;
ghost use Rattle.plan.specs.Memory.{lines};
ghost use Rattle.refusals.specs.Numbers.{numbered};
ghost use Rattle.kernel.specs.Finding.{found_of};

use crate::nodes::row_nodes;
use crate::search::{entry_fits, first_entry};
use arrays::wide;
use plan::Plan;
use plan_refusals::refuse;
use refusals::Refusal;

// The number of the first entry from number `first` on that is of a node at a tick and whose column is met by what is
// heard, for a plan in which refusals 2 to 9 find nothing: the plan tells the node of a row. A node that it lacks has
// no entries.
fn found_in(
    p: Plan,
    table: &[u32],
    node: u32,
    tick: u32,
    heard: u32,
    values: u32,
    first: usize,
) -> Option<usize>
    requires { plan_refusal (lines p) ≡ nothing }
    ensures { Ok result ≡ found_of (m.lookup (lines p) table.now node tick heard values first) }
{
    if p.slots <= wide(node) {
        return None;
    }
    let b = row_nodes(p);
    first_entry(
        table.len() / 5,
        first,
        &|i| entry_fits(table, i, &b.node, b.rows, node, tick, heard, values),
    )
}

// The kernel lookup: the number of the first entry, from number `first` on, of a node at a tick whose known bits are
// all heard, with the heard values at those bits; or none. A message or broadcast is of its sender's node, and a row
// that the plan lacks of no node. Refusals 2 to 9 are tried on the plan first.
pub fn lookup(
    p: Plan,
    table: &[u32],
    node: u32,
    tick: u32,
    heard: u32,
    values: u32,
    first: usize,
) -> Result<Option<usize>, Refusal>
    ensures { numbered result ≡ found_of (m.lookup (lines p) table.now node tick heard values first) }
{
    refuse(p)?;
    Ok(found_in(p, table, node, tick, heard, values, first))
}
