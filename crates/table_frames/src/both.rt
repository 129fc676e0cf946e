// Writes the start table and the frame list into lent words, where both fit.
ghost use Rattle.std.specs.Prelude.{◌≡◌, true, false, ℕ, ◌*◌, ◌≤◌, ◌<◌, get_or, length, take};
ghost use Rattle.limits.specs.Limits.{ROWS, ENTRIES};
ghost use Rattle.lists.specs.Front.{front};
ghost use Rattle.table_entries.specs.Words.{Laid, table as table_words};
ghost use Rattle.table_frames.specs.Packed.{packed_words};

use limits::{ENTRIES, ROWENDS};

// Writes the entries of all rows, for which the lent words suffice, and the first `used` frames, where the words lent
// for them suffice too; if not, nothing.
pub fn write_both(
    list: &[u64; ENTRIES],
    ends: &[u32; ROWENDS],
    rows: usize,
    out: &[u64; ENTRIES],
    used: usize,
    table: &mut [u32],
    frames: &mut [u32],
) -> bool
    requires fact_1 { (rows ≤ ROWS) × Laid list.now ends.now rows × (5 * get_or ends.now rows 0 ≤ length table.old) }
    requires fact_2 { (used ≤ ENTRIES) × (length out.now ≡ ENTRIES)
        × ((i : ℕ) → i < used → get_or out.now i 0 < 4398046511104) }
    ensures written { result ≡ true → (3 * used ≤ length frames.old)
        × (table.new ≡ front (table_words list.now ends.now rows) table.old)
        × (frames.new ≡ front (packed_words (take used out.now)) frames.old) }
    ensures kept { result ≡ false → (length frames.old < 3 * used)
        × (table.new ≡ table.old) × (frames.new ≡ frames.old) }
{
    if frames.len() < 3 * used {
        return false;
    }
    table_entries::write(list, ends, rows, table);
    crate::frames::write(out, used, frames);
    true
}
