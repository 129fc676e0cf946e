// The plan in memory: structs by value, counts and arrays, its lines as parts of the arrays (held), and the tests that
// refusals 2 to 9 are made of: on the counts, one number or one line (fields), and of what stands twice (any_tests).
// `lines` in specs/Memory.antt says which lines of document 01 a plan stands for.
// Document 01: "Two plans in memory are the same if the lines they stand for are."
#![tactic(auto)]

mod any_tests;
mod fields;
mod held;

ghost use Rattle.std.specs.Prelude.{◌≡◌};
ghost use Rattle.plan.specs.Memory.{empty_plan};

pub use any_tests::{any_twice, shared_node, twin_edges};
pub use fields::{
    has_long_message, has_wrong_ends, has_wrong_when, is_outside, wrong_counts, wrong_plan_line,
};
use limits::{CONDITIONS, EDGES, PROCESSES, SLOTS};

// "`pick` is `urgency` or `number`"
#[derive(Clone, Copy, Debug, PartialEq, Eq)]
pub enum Pick {
    Urgency,
    Number,
}

// "`waits` is `all`, or `any` for a conjunction process"
#[derive(Clone, Copy, Debug, PartialEq, Eq)]
pub enum Waits {
    All,
    Any,
}

// The `when` of an edge: always, or a condition that must be true or false.
#[derive(Clone, Copy, Debug, PartialEq, Eq)]
pub enum When {
    Always,
    True(u32),
    False(u32),
}

// The plan line: `byte` is "ticks per byte on the bus", and `head` the bytes that a frame has beside its data.
#[derive(Clone, Copy, Debug, PartialEq, Eq)]
pub struct PlanLine {
    pub byte: u32,
    pub head: u32,
    pub pick: Pick,
}

// A slot of the bus: the node that it is of, and the bytes that it carries.
#[derive(Clone, Copy, Debug, PartialEq, Eq)]
pub struct Slot {
    pub node: u32,
    pub bytes: u32,
}

// A process: where it runs, how many ticks, and what it waits for.
#[derive(Clone, Copy, Debug, PartialEq, Eq)]
pub struct Process {
    pub node: u32,
    pub ticks: u32,
    pub waits: Waits,
}

// An edge: a message of so many bytes from one process to another.
#[derive(Clone, Copy, Debug, PartialEq, Eq)]
pub struct Edge {
    pub from: u32,
    pub to: u32,
    pub bytes: u32,
    pub when: When,
}

// A plan: `slots` is how many of the array `slot` are the plan's, and so on. A count above its array stands for as many
// lines, of which refusal 2 then finds too many. No derived equality: what stands past the counts is no part of a plan.
#[derive(Clone, Copy)]
pub struct Plan {
    pub line: PlanLine,
    pub slots: usize,
    pub slot: [Slot; SLOTS],
    pub processes: usize,
    pub process: [Process; PROCESSES],
    pub conditions: usize,
    pub condition: [u32; CONDITIONS],
    pub edges: usize,
    pub edge: [Edge; EDGES],
}

// The plan to start from: no lines but the plan line, with `byte` and `head` 0.
pub fn empty() -> Plan
    ensures { result ≡ empty_plan }
{
    let line = PlanLine {
        byte: 0,
        head: 0,
        pick: Pick::Urgency,
    };
    let s = Slot { node: 0, bytes: 0 };
    let q = Process {
        node: 0,
        ticks: 0,
        waits: Waits::All,
    };
    let e = Edge {
        from: 0,
        to: 0,
        bytes: 0,
        when: When::Always,
    };
    let slot = [s; SLOTS];
    let process = [q; PROCESSES];
    let condition = [0u32; CONDITIONS];
    let edge = [e; EDGES];
    Plan {
        line,
        slots: 0,
        slot,
        processes: 0,
        process,
        conditions: 0,
        condition,
        edges: 0,
        edge,
    }
}
