// Whether the frames that a listing states are those that the entries of its table give: ascending ticks, each item in
// a frame of its tick and its sender's node that reaches as far as the item or farther, and each frame filled, by an
// item that reaches as far as the frame.
ghost use Rattle.std.specs.Prelude.{◌≡◌, true, ℕ, ◌+◌, ◌%◌, ◌<◌, ◌≤◌, get_or, length};
ghost use Rattle.limits.specs.Limits.{ROWS, LASTPLACE, PRINTEDFRAMES, PRINTEDFRAMEWORDS};
ghost use Rattle.lists.specs.Lists.{same_numbers};
ghost use Rattle.model.specs.Plan.{Lines};
ghost use Rattle.model.specs.Checking.{Sound};
ghost use Rattle.plan_index.specs.Index.{laid, Bounded};
ghost use Rattle.plan_layout.specs.Indexed.{Indexed};
ghost use Rattle.checker_rows.specs.MetRows.{entry_from};
ghost use Rattle.checker_listing.specs.FrameList.{Tells, AllMarked};
ghost use Rattle.checker_listing.specs.Filling.{item_by, FramedIn, Marked, InOrder, PlacedIn, Fitted};
ghost use Rattle.checker_listing.specs.Filling.{frames_given, SomeSound};

use crate::frame_ticks::{find_frame, ticks_ascend};
use arrays::wide;
use limits::PRINTEDFRAMES;
use plan_index::{Index, processes_of, sender_of, size_of};

// The frame that an item alone would give: its tick, its sender's node, and its last byte counted from 1.
#[derive(Clone, Copy)]
pub struct ItemFrame {
    pub tick: u32,
    pub node: u32,
    pub used: u32,
}

// The frame of the item whose five words begin at table[at].
fn item_frame(table: &[u32], at: usize, index: &Index) -> ItemFrame
    requires { (at + 5 ≤ length table.now) × (get_or table.now at 0 < ROWS)
        × (get_or table.now (at + 4) 0 ≤ LASTPLACE) × Bounded (laid index.now) }
    ensures { result ≡ item_by (laid index.now).sender (laid index.now).size
        (entry_from table.now at) }
{
    let row = wide(table[at]);
    ItemFrame {
        tick: table[at + 3],
        node: sender_of(index, row) as u32,
        used: table[at + 4] + size_of(index, row),
    }
}

// Whether a frame of the item's tick and node reaches as far as the item or farther. If just as far, it is marked as
// filled.
fn fit_item(frames: &[u32], item: ItemFrame, filled: &mut [u8; PRINTEDFRAMES]) -> bool
    requires fact_1 { InOrder frames.now }
    requires fact_2 { length filled.old ≡ PRINTEDFRAMES }
    ensures fact_1 { Tells result (FramedIn frames.now item) }
    ensures fact_2 { (result ≡ true → Marked frames.now item filled.old filled.new) }
{
    let k = find_frame(frames, item.tick);
    let at = 3 * k;
    if frames.len() <= at {
        return false;
    }
    if frames[at] != item.tick {
        return false;
    }
    if frames[at + 1] != item.node {
        return false;
    }
    let used = frames[at + 2];
    if used < item.used {
        return false;
    }
    if used == item.used {
        filled[k] = 1;
    }
    true
}

// Whether the first `count` frames are all marked.
fn all_filled(filled: &[u8; PRINTEDFRAMES], count: usize) -> bool
    requires { count ≤ PRINTEDFRAMES }
    ensures { Tells result (AllMarked filled.now count) }
{
    for k in 0..count {
        if filled[k] != 1 {
            return false;
        }
    }
    true
}

// Whether each item of a table has its frame among frames in order, and each of these is filled.
fn items_fit(index: &Index, table: &[u32], frames: &[u32]) -> bool
    requires fact_1 { PlacedIn (laid index.now) table.now }
    requires fact_2 { InOrder frames.now }
    ensures { Tells result (Fitted (laid index.now) table.now frames.now) }
{
    let mut filled = [0u8; PRINTEDFRAMES];
    let processes = processes_of(index);
    let count = table.len() / 5;
    for i in 0..count {
        let at = 5 * i;
        if processes <= wide(table[at]) {
            let item = item_frame(table, at, index);
            if !fit_item(frames, item, &mut filled) {
                return false;
            }
        }
    }
    all_filled(&filled, frames.len() / 3)
}

// Whether these are the frames that the entries of a sound table give.
pub(crate) fn gives_frames(index: &Index, table: &[u32], frames: &[u32]) -> bool
    requires fact_1 { SomeSound (laid index.now) table.now }
    requires fact_2 { (length frames.now % 3 ≡ 0) × (length frames.now ≤ PRINTEDFRAMEWORDS) }
    ensures { (p : Lines) (delay : ℕ) → Indexed p (laid index.now) → Sound p table.now
        delay → result ≡ same_numbers frames.now (frames_given p table.now) }
{
    if !ticks_ascend(frames) {
        return false;
    }
    items_fit(index, table, frames)
}
