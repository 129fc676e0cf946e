// The frame list: the frames that the entries of a table are sent in, one for each tick, with the greatest last used
// byte.
ghost use Rattle.std.specs.Prelude.{◌≡◌, map, ℕ, ◌+◌, ◌-◌, ◌*◌, ◌/◌, ◌^◌, ◌<◌, ◌≤◌, get_or, length, take};
ghost use Rattle.std.proofs.Math.Seq.{slice};
ghost use Rattle.limits.specs.Limits.{ENTRIES};
ghost use Rattle.lists.specs.Front.{front};
ghost use Rattle.lists.specs.Ordered.{Ascending};
ghost use Rattle.plan_index.specs.Index.{laid, Bounded};
ghost use Rattle.table_entries.specs.Among.{multiple, Added};
ghost use Rattle.table_frames.specs.Packed.{entry_frame, Collected, Rows, frames_of, packed_words};

use arrays::wide;
use limits::{ENTRIES, ROWENDS};
use plan_index::{Index, processes_of, rows_of, sender_of, size_of};
use table_entries::put;

fn word(x: u64) -> u32
    requires { x < 4294967296 }
    ensures { result ≡ x }
{
    x as u32
}

// The number of the frame of an entry: its tick, its node, and its last used byte counted from 1.
fn frame(x: u64, node: u32, bytes: u32) -> u64
    ensures { (result ≡ entry_frame node bytes x) × (result < 2 ^ 57) }
{
    x / 262144 * 1024 + u64::from(node) * 128 + (x % 64 + u64::from(bytes))
}

// Puts a frame among the first n frames of `out`.
fn add(y: u64, out: &mut [u64; ENTRIES], n: usize) -> usize
    requires { (y < 2 ^ 57) × (n < ENTRIES) × (length out.old ≡ ENTRIES)
        × Ascending (multiple 1024) (take n out.old) }
    ensures { Added 1024 y out.old out.new 0 n result }
{
    put(out, 0, n, y / 1024 * 1024, 1024, y)
}

// Puts the frames of the entries list[from .. to], which are of one row, among the first n frames of `out`: of entries
// of one tick that stand next to each other the greatest frame, once.
fn collect_row(
    list: &[u64; ENTRIES],
    from: usize,
    to: usize,
    node: u32,
    bytes: u32,
    out: &mut [u64; ENTRIES],
    n: usize,
) -> usize
    requires { (from ≤ to) × (to ≤ ENTRIES) × (n + (to - from) ≤ ENTRIES) × (length list.now ≡ ENTRIES)
        × (length out.old ≡ ENTRIES) × Ascending (multiple 1024) (take n out.old) }
    ensures { Collected (map (entry_frame node bytes) (slice from to list.now))
        (take n out.old) out.new (n + (to - from)) result }
{
    if to <= from {
        return n;
    }
    let mut m = n;
    let mut y = frame(list[from], node, bytes);
    for i in from + 1..to {
        let x = frame(list[i], node, bytes);
        if x / 1024 == y / 1024 {
            y = x.max(y);
        } else {
            m = add(y, out, m);
            y = x;
        }
    }
    add(y, out, m)
}

// The frames of the entries of the rows behind the processes, by ascending ticks, at the front of `out`; how many there
// are.
pub fn collect(
    index: &Index,
    list: &[u64; ENTRIES],
    ends: &[u32; ROWENDS],
    out: &mut [u64; ENTRIES],
) -> usize
    requires { Bounded (laid index.now) × (length out.old ≡ ENTRIES)
        × Rows list.now ends.now (laid index.now).processes (laid index.now).rows }
    ensures { (take result out.new ≡ frames_of (laid index.now) list.now
        ends.now) × (result ≤ get_or ends.now (laid index.now).rows 0)
        × (length out.new ≡ ENTRIES) }
{
    let rows = rows_of(index);
    let mut n: usize = 0;
    for q in processes_of(index)..rows {
        let from = wide(ends[q]);
        let to = wide(ends[q + 1]);
        let node = sender_of(index, q) as u32;
        n = collect_row(list, from, to, node, size_of(index, q), out, n);
    }
    n
}

// Writes the first n frames of `list` as words, three each, to the front of `words`.
pub(crate) fn write(list: &[u64; ENTRIES], n: usize, words: &mut [u32])
    requires { (n ≤ ENTRIES) × (length list.now ≡ ENTRIES) × (3 * n ≤ length words.old)
        × ((i : ℕ) → i < n → get_or list.now i 0 < 4398046511104) }
    ensures { words.new ≡ front (packed_words (take n list.now)) words.old }
{
    for i in 0..n {
        let y = list[i];
        let k = 3 * i;
        words[k] = word(y / 1024);
        words[k + 1] = word(y % 1024 / 128);
        words[k + 2] = word(y % 128);
    }
}
