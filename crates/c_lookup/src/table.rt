// The kernel lookup over the bytes of a table: its words, four bytes each, are read where they lie.
ghost use Rattle.std.specs.Prelude.{Ok, ◌≡◌};
ghost use Rattle.model.specs.Refusals.{nothing, plan_refusal};
ghost use Rattle.model.specs.Firmware.{words_of};
ghost use Rattle.model.specs.Lookup as m;
ghost use Rattle.plan.specs.Memory.{lines};
ghost use Rattle.kernel.specs.Finding.{found_of};

use crate::search::bytes_fit;
use arrays::wide;
use c_words::how_many;
use kernel::{first_entry, row_nodes};
use plan::Plan;

// The kernel lookup over the bytes of a table, for a plan in which refusals 2 to 9 find nothing: the number of the
// first entry, from number `first` on, of a node at a tick whose known bits are all heard, with the heard values at
// those bits; or none. A node that the plan lacks has no entries.
pub(crate) fn lookup_bytes(
    p: Plan,
    bytes: &[u8],
    node: u32,
    tick: u32,
    heard: u32,
    values: u32,
    first: usize,
) -> Option<usize>
    requires { plan_refusal (lines p) ≡ nothing }
    ensures { Ok result ≡ found_of (m.lookup (lines p) (words_of bytes.now) node tick heard values first) }
{
    if p.slots <= wide(node) {
        return None;
    }
    let b = row_nodes(p);
    first_entry(
        how_many(bytes) / 5,
        first,
        &|i| bytes_fit(bytes, i, &b, node, tick, heard, values),
    )
}
