// What a combination takes over from an earlier one that differs from it in one value: the rows placed before that
// value arrives, and what was counted and noted by then. Combination c's row r stands at place c * ROWS + r.
// specs/Prefix.antt says what the arrays hold.
ghost use Rattle.std.specs.Prelude.{◌≡◌, ◌^◌, ◌<◌, ◌≤◌, length, replicate};
ghost use Rattle.limits.specs.Limits.{NODES, CONDITIONS, COMBINATIONS, CONDITIONROW, ROWS, ENTRIES};
ghost use Rattle.plan_index.specs.Index.{laid, Bounded};
ghost use Rattle.log_rows.specs.Rows.{rows_of, with_comes};
ghost use Rattle.planner_nodes.specs.Nodes.{nodes_of, no_nodes, with_busy};
ghost use Rattle.table_entries.specs.Logs.{block};
ghost use Rattle.planner_prefix.specs.Prefix.{cut_one, cut, ends_below, arrival, later_by, source_among};
ghost use Rattle.planner_prefix.specs.Prefix.{counts_at, Shared};

use crate::parts::{clear, copy_numbers};
use limits::{COMBINATIONNOTES, ENTRIES, NEVER, NODES, NOTED, NOTES, ROWS};
use log_rows::{COMES_AT, PLACE_AT, Rows, WORDS, comes_of, put_comes};
use plan_index::{Index, conditionrow_of, conditions_of, node_of, processes_of, slots_of, span_of};
use planner_nodes::{NOTED_AT, Nodes, PASSED_AT, busy_of, put_busy};

// The combination that another takes over from, the condition in which the two differ, and the clock up to which they
// are planned alike: that at which the condition's value arrives, or `NEVER` where it never does.
#[derive(Clone, Copy)]
pub struct Source {
    pub from: usize,
    pub condition: usize,
    pub clock: u32,
}

// The clock at which a value arrives: x, or `NEVER` where x is 0 (no Option: it is compared with clocks, as the
// latest).
fn arrives(x: u32) -> u32
    ensures { result ≡ arrival x }
{
    if x == 0 { NEVER } else { x }
}

// Of the best source so far and the combination without condition k, the one whose value arrives later. `power` is 2 to
// the k, and `value` is 0 where the value of k is false already.
fn later(
    comes: &[u32; ENTRIES],
    conditionrow: usize,
    c: usize,
    k: usize,
    power: usize,
    value: usize,
    best: Source,
) -> Source
    requires { (c < COMBINATIONS) × (conditionrow ≤ CONDITIONROW) × (k < CONDITIONS) × (0 < value → power ≤ c) }
    ensures { result ≡ later_by comes.now conditionrow c k power value best }
{
    if value == 0 {
        return best;
    }
    let from = c - power;
    let clock = arrives(comes[from * ROWS + conditionrow + k]);
    if clock <= best.clock {
        return best;
    }
    Source {
        from,
        condition: k,
        clock,
    }
}

// Of the earlier combinations that differ from c in one condition, the one whose value arrives last, with that clock;
// the lowest condition where several do.
fn source_of(comes: &[u32; ENTRIES], conditionrow: usize, conditions: usize, c: usize) -> Source
    requires { (conditionrow ≤ CONDITIONROW) × (conditions ≤ CONDITIONS) × (0 < c) × (c < 2 ^ conditions) }
    ensures { result ≡ source_among comes.now conditionrow c conditions }
{
    let mut best = Source {
        from: 0,
        condition: 0,
        clock: 0,
    };
    let mut rest = c;
    let mut power: usize = 1;
    for k in 0..conditions {
        best = later(comes, conditionrow, c, k, power, rest % 2, best);
        rest /= 2;
        power *= 2;
    }
    best
}

// The row where it was placed before clock u, 0 otherwise: it is over at clock x and lasts so many ticks.
fn cut_row(x: u32, lasts: u32, u: u32) -> u32
    ensures { result ≡ cut_one x lasts u }
{
    if x.saturating_sub(lasts) < u { x } else { 0 }
}

// The rows of combination d that were placed before clock u, whatever rows are there before.
fn cut_rows(index: &Index, all: &[u32; ENTRIES], d: usize, u: u32, rows: &mut Rows)
    requires { (d < COMBINATIONS) × Bounded (laid index.now) × (length (rows_of rows.old).comes ≡ ROWS) }
    ensures { rows_of rows.new ≡ with_comes (cut (block all.now d)
        (laid index.now).span u) (rows_of rows.old) }
{
    for r in 0..ROWS {
        let x = cut_row(all[d * ROWS + r], span_of(index, r), u);
        put_comes(rows, r, x);
    }
}

// By node, the last end of a process among some rows, where none is known before.
fn last_ends(index: &Index, rows: &Rows, nodes: &mut Nodes)
    requires { Bounded (laid index.now) × ((nodes_of nodes.old).busy ≡ replicate NODES 0) }
    ensures { nodes_of nodes.new ≡ with_busy (ends_below (laid index.now).node
        (rows_of rows.now).comes (laid index.now).processes) (nodes_of nodes.old) }
{
    let processes = processes_of(index);
    for i in 0..processes {
        let n = node_of(index, i);
        let end = busy_of(nodes, n).max(comes_of(rows, i));
        put_busy(nodes, n, end);
    }
}

// Where the counts of a source stand: those noted as its condition's value arrives, or the last ones where it never
// does.
fn place_of_counts(s: Source) -> usize
    requires { (s.from < COMBINATIONS) × (s.condition < CONDITIONS) }
    ensures { result ≡ counts_at s }
{
    let first = s.from * COMBINATIONNOTES;
    if s.clock == NEVER {
        first + NOTED
    } else {
        first + s.condition * NODES
    }
}

// What combination c takes over: the answer is the clock from which it is planned. The rows, whatever they hold before,
// and the nodes, which are empty before, hold what is placed before that clock, by node the last end of a process, and
// what was counted and noted by then. Combination 0 begins from nothing at clock 1.
pub fn shared_prefix(
    index: &Index,
    c: usize,
    comes: &[u32; ENTRIES],
    place: &[u32; ENTRIES],
    notes: &[u32; NOTES],
    rows: &mut Rows,
    nodes: &mut Nodes,
) -> u32
    requires { (c < COMBINATIONS) × (c < 2 ^ (laid index.now).conditions) × Bounded (laid index.now)
        × (length place.now ≡ ENTRIES) × (nodes_of nodes.old ≡ no_nodes) }
    ensures { Shared (laid index.now) c result comes.now place.now
        notes.now (rows_of rows.new) (nodes_of nodes.new) }
{
    if c == 0 {
        clear(rows, WORDS);
        return 1;
    }
    clear(rows, COMES_AT);
    let s = source_of(comes, conditionrow_of(index), conditions_of(index), c);
    let from = s.from;
    let clock = s.clock;
    cut_rows(index, comes, from, clock, rows);
    copy_numbers(place, from * ROWS, ROWS, rows, PLACE_AT);
    last_ends(index, rows, nodes);
    copy_numbers(notes, place_of_counts(s), slots_of(index), nodes, PASSED_AT);
    copy_numbers(notes, from * COMBINATIONNOTES, NOTED, nodes, NOTED_AT);
    clock
}
