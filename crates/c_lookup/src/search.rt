// The test of an entry over the bytes of a table: its words, four bytes each, are read where they lie.
ghost use Rattle.std.specs.Prelude.{◌≡◌, ◌/◌, ◌≤◌, ◌<◌, length};
ghost use Rattle.limits.specs.Limits.{ROWS};
ghost use Rattle.model.specs.Firmware.{words_of};
ghost use Rattle.kernel_rows.specs.Entries.{entry_at};
ghost use Rattle.kernel.specs.Finding.{fits_by};

use c_words::{entry_of, word_at};
use kernel::{RowNodes, entry_fits};

// Whether entry i of a table is of a node at a tick, and its column is met by what is heard. `b` tells the node of each
// row. Only an entry at that tick is copied.
pub(crate) fn bytes_fit(
    bytes: &[u8],
    i: usize,
    b: &RowNodes,
    node: u32,
    tick: u32,
    heard: u32,
    told: u32,
) -> bool
    requires entry { i < length (words_of bytes.now) / 5 }
    requires rows { b.now.rows ≤ ROWS }
    ensures { result ≡ fits_by b.now.node b.now.rows node tick heard told (entry_at (words_of bytes.now) i) }
{
    let at = i * 5;
    if word_at(bytes, at + 3) != tick {
        return false;
    }
    let five = entry_of(bytes, at);
    entry_fits(&five, 0, &b.node, b.rows, node, tick, heard, told)
}
