// The planning of one combination: one event (a process ends, a slot that carries something ends, or a slot begins
// whose node has a ready item), and a run of events until none is left.
// Document 01: "For one combination, tick by tick: arrivals first, then starts, then slots that begin."
#![tactic(auto)]

mod combination;
mod event;

pub use combination::plan_combination;
