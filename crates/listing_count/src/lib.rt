// How many bytes a listing needs, counted line by line with no store: each function takes a room, and answers what its
// text leaves of it, or 0 where the text needs more. Nothing is counted where the lent bytes suffice for any listing of
// as many words.
// Document 01: "a written text more bytes, than lent"
#![tactic(auto)]

ghost use Rattle.std.specs.Prelude.{◌≡◌, ◌-◌, ◌≤◌, ltb, length};
ghost use Rattle.limits.specs.Limits.{NODES};
ghost use Rattle.model.specs.Text.{text, decimal};
ghost use Rattle.listing_count.specs.Parts.{value_at, values_from, start_of, item_of, entry_of, entries_text};
ghost use Rattle.listing_count.specs.Parts.{frame_of, frames_text, passed_of, passed_text, listing_of};
ghost use Rattle.listing_count.specs.Ample.{ample};

use limits::{CONDITIONS, LASTCLOCK};

// How many processes, edges and conditions a plan has.
#[derive(Clone, Copy)]
pub struct Counts {
    pub processes: usize,
    pub edges: usize,
    pub conditions: usize,
}

// How many decimal digits a number has.
pub fn digits(n: u32) -> usize
    ensures { (result ≡ length (decimal n)) × (result ≤ 10) }
{
    if n < 10 {
        return 1;
    }
    if n < 100 {
        return 2;
    }
    if n < 1000 {
        return 3;
    }
    if n < 10000 {
        return 4;
    }
    if n < 100000 {
        return 5;
    }
    if n < 1000000 {
        return 6;
    }
    if n < 10000000 {
        return 7;
    }
    if n < 100000000 {
        return 8;
    }
    if n < LASTCLOCK {
        return 9;
    }
    10
}

// The room after condition k of a column: the lowest bits of `known` and `values` are its.
fn value_room(room: usize, known: u32, values: u32, k: u32) -> usize
    ensures { result ≡ room - length (value_at known values k) }
{
    if known % 2 == 0 {
        return room;
    }
    if values % 2 == 0 {
        return room.saturating_sub(9 + digits(k));
    }
    room.saturating_sub(8 + digits(k))
}

// The room after the conditions of a column.
fn values_room(room: usize, conditions: usize, known: u32, values: u32) -> usize
    ensures { result ≡ room - length (values_from conditions known values 0) }
{
    let mut left = room;
    let mut x = known;
    let mut v = values;
    for k in 0..conditions {
        left = value_room(left, x, v, k as u32);
        x /= 2;
        v /= 2;
        if x == 0 {
            return left;
        }
    }
    left
}

// The room after the line of a process.
fn start_room(room: usize, conditions: usize, row: u32, known: u32, values: u32, tick: u32) -> usize
    ensures { result ≡ room - length (start_of conditions row known values tick) }
{
    let column = values_room(room, conditions, known, values);
    column.saturating_sub(22 + digits(row) + digits(tick))
}

// The room after the line of an edge or a condition: their first words are of one length.
fn item_room(
    room: usize,
    conditions: usize,
    number: u32,
    known: u32,
    values: u32,
    tick: u32,
    place: u32,
) -> usize
    ensures { result ≡ room - length (item_of (text "(send ") conditions number known values tick place) }
{
    let column = values_room(room, conditions, known, values);
    column.saturating_sub(30 + digits(number) + digits(tick) + digits(place))
}

// The room after the line of an entry.
fn entry_room(
    room: usize,
    counts: Counts,
    row: u32,
    known: u32,
    values: u32,
    tick: u32,
    place: u32,
) -> usize
    ensures { result ≡ room - length (entry_of counts.processes counts.edges counts.conditions row known values tick
        place) }
{
    let conditions = counts.conditions;
    let number = row as usize;
    if number < counts.processes {
        return start_room(room, conditions, row, known, values, tick);
    }
    let edge = number - counts.processes;
    if edge < counts.edges {
        return item_room(room, conditions, edge as u32, known, values, tick, place);
    }
    let condition = edge - counts.edges;
    if condition < conditions {
        return item_room(
            room,
            conditions,
            condition as u32,
            known,
            values,
            tick,
            place,
        );
    }
    room
}

// The room after the lines of a table.
fn entries_room(room: usize, counts: Counts, table: &[u32]) -> usize
    ensures { result ≡ room - length (entries_text counts.processes counts.edges counts.conditions table.now) }
{
    let mut left = room;
    for e in table.chunks_exact(5) {
        left = entry_room(left, counts, e[0], e[1], e[2], e[3], e[4]);
    }
    left
}

// The room after the line of a frame.
fn frame_room(room: usize, tick: u32, node: u32, used: u32) -> usize
    ensures { result ≡ room - length (frame_of tick node used) }
{
    room.saturating_sub(26 + digits(tick) + digits(node) + digits(used))
}

// The room after the lines of a frame list.
fn frames_room(room: usize, frames: &[u32]) -> usize
    ensures { result ≡ room - length (frames_text frames.now) }
{
    let mut left = room;
    for f in frames.chunks_exact(3) {
        left = frame_room(left, f[0], f[1], f[2]);
    }
    left
}

// The room after the passed line of a node.
fn count_room(room: usize, node: u32, count: u32) -> usize
    ensures { result ≡ room - length (passed_of node count) }
{
    room.saturating_sub(18 + digits(node) + digits(count))
}

// The room after the passed lines of the nodes that these are the counts of, from node 0 on.
fn passed_room(room: usize, passed: &[u32]) -> usize
    requires { length passed.now ≤ NODES }
    ensures { result ≡ room - length (passed_text 0 passed.now) }
{
    let mut left = room;
    for (i, &count) in passed.iter().enumerate() {
        left = count_room(left, i as u32, count);
    }
    left
}

// The lent bytes suffice for any listing of so many words, at most a million of each kind, for a plan of at most eight
// nodes and six conditions: an entry's line has at most 120 bytes, a frame's at most 56, the line of the delay at most
// 19, that of a node at most 29. Where this answers no they may suffice all the same.
#[tactic(auto, unfolding(crate::specs::Ample::ample, crate::specs::Parts::most_bytes))]
fn suffice(lent: usize, conditions: usize, words: usize, framewords: usize) -> bool
    ensures { result ≡ ample lent conditions words framewords }
{
    conditions <= CONDITIONS
        && words <= 1000000
        && framewords <= 1000000
        && 251 + 120 * (words / 5) + 56 * (framewords / 3) <= lent
}

// A listing needs more bytes than are lent. It has a passed line for each of the counts.
pub fn exceeds<'a>(
    lent: usize,
    counts: Counts,
    delay: u32,
    passed: &'a [u32],
    table: &'a [u32],
    frames: &'a [u32],
) -> bool
    requires { length passed.now ≤ NODES }
    ensures { result ≡ ltb lent (length (listing_of counts.processes counts.edges counts.conditions delay
        passed.now table.now frames.now)) }
{
    if suffice(lent, counts.conditions, table.len(), frames.len()) {
        return false;
    }
    let first = 9 + digits(delay);
    if lent < first {
        return true;
    }
    let room = passed_room(lent - first + 1, passed);
    frames_room(entries_room(room, counts, table), frames) < 1
}
