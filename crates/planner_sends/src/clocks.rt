// The clocks of an event: for which nodes something is new, whose slot takes an item, when a process next ends, and
// when the next event is. specs/Clocks.antt says what each is.
ghost use Rattle.std.specs.Prelude.{◌≡◌, ℕ, ◌+◌, ◌<◌, ◌≤◌, eqb, get_or, unwrap_or, IfSome};
ghost use Rattle.limits.specs.Limits.{NODES};
ghost use Rattle.lists.specs.Lists.{any, below};
ghost use Rattle.model.specs.Listing.{bit};
ghost use Rattle.bitset.specs.Masks.{mask_from};
ghost use Rattle.planner_nodes.specs.Nodes.{WORDS, nodes_of};
ghost use Rattle.planner_sends.specs.Clocks.{new_at, sending_node_by, sooner_by, come_by, ends_now};
ghost use Rattle.planner_sends.specs.Clocks.{changes_at, event_now};

use bitset::with_bit;
use limits::{NEVER, NODES};
use planner_nodes::{BUSY_AT, LASTARRIVAL_AT, Nodes, busy_of, nextsend_of};

// The mask of the nodes that have the clock u in the array by node that stands from place `at` on.
fn at_clock(nodes: &Nodes, at: usize, u: u32) -> u32
    requires { at + NODES ≤ WORDS }
    ensures { result ≡ mask_from (λ n. eqb (get_or nodes.now (at + n) 0) u) 0 NODES }
{
    let mut mask: u32 = 0;
    for n in (0..NODES).rev() {
        mask = with_bit(mask, nodes[at + n] == u);
    }
    mask
}

// The mask of the nodes for which something is new at clock u: an item arrives, or the last process ends.
pub fn changed_nodes(nodes: &Nodes, u: u32) -> u32
    ensures { (result < 256) × ((n : ℕ) → n < NODES → bit result n ≡ new_at (nodes_of nodes.now).lastarrival
        (nodes_of nodes.now).busy u n) }
{
    let items = at_clock(nodes, LASTARRIVAL_AT, u);
    let ends = at_clock(nodes, BUSY_AT, u);
    items | ends
}

// Whether the slot of a node takes an item at clock u.
// `any` would return early, which the comparisons without a branch of point 4 do not.
fn any_sends(nodes: &Nodes, u: u32) -> bool
    ensures { result ≡ any (λ n. eqb (get_or (nodes_of nodes.now).nextsend n 0) u) (below NODES) }
{
    let mut found = false;
    for n in 0..NODES {
        found |= nextsend_of(nodes, n) == u;
    }
    found
}

// The first node whose slot takes an item at clock u.
fn which_sends(nodes: &Nodes, slots: usize, u: u32) -> Option<usize>
    requires { slots ≤ NODES }
    ensures first { unwrap_or result slots ≡ sending_node_by (nodes_of nodes.now).nextsend u slots }
    ensures among { IfSome result (λ n. n < slots) }
{
    for n in 0..slots {
        if nextsend_of(nodes, n) == u {
            return Some(n);
        }
    }
    None
}

// The node whose slot takes an item at clock u, if there is one.
pub fn sending_node(nodes: &Nodes, slots: usize, u: u32) -> Option<usize>
    requires { slots ≤ NODES }
    ensures first { unwrap_or result slots ≡ sending_node_by (nodes_of nodes.now).nextsend u slots }
    ensures among { IfSome result (λ n. n < slots) }
{
    if any_sends(nodes, u) {
        which_sends(nodes, slots, u)
    } else {
        None
    }
}

// x where it lies after u and before the least so far, or else that.
pub fn sooner(least: u32, x: u32, u: u32) -> u32
    ensures { result ≡ sooner_by least x u }
{
    if u < x { least.min(x) } else { least }
}

// The next clock after u at which a process ends, or `NEVER` (no Option: it is compared with clocks, as the latest).
fn next_end(nodes: &Nodes, slots: usize, u: u32) -> u32
    requires { slots ≤ NODES }
    ensures { result ≡ come_by 0 (nodes_of nodes.now).busy u slots }
{
    let mut least: u32 = NEVER;
    for n in 0..slots {
        least = sooner(least, busy_of(nodes, n), u);
    }
    least
}

// The next clock after u at which a process ends: worked out again where one ends at u; elsewhere at most one that
// starts ends sooner. `first` is the first end of those that start.
pub fn ends_after(nodes: &Nodes, slots: usize, ends: u32, first: u32, u: u32) -> u32
    requires { slots ≤ NODES }
    ensures { result ≡ ends_now ends first (nodes_of nodes.now).busy u slots }
{
    if ends == u {
        next_end(nodes, slots, u)
    } else {
        ends.min(first)
    }
}

// The clock at which the items that a node has pending may next change: u where a broadcast arrives at it, or else the
// next end of a process.
pub fn changes(broadcastend: u32, ends: u32, u: u32) -> u32
    ensures { result ≡ changes_at broadcastend ends u }
{
    if broadcastend == u { u } else { ends }
}

// The next event: `come`, or when the slot of a node takes an item, if that is sooner.
pub fn next_event(nodes: &Nodes, come: u32) -> u32
    ensures { result ≡ event_now (nodes_of nodes.now).nextsend come NODES }
{
    let mut least = come;
    for n in 0..NODES {
        least = least.min(nextsend_of(nodes, n));
    }
    least
}
