// The lines of a plan in memory, each kind as the part of its array that the count names.
ghost use Rattle.std.specs.Prelude.{◌≡◌, map};
ghost use Rattle.plan.specs.Bounds.{Few};
ghost use Rattle.plan.specs.Memory.{slot_of, process_of, edge_of, lines};

use crate::{Edge, Plan, Process, Slot};

impl Plan {
    // The slots, in bus order.
    pub fn slot_lines(&self) -> &[Slot]
        requires { Few self.now }
        ensures { map slot_of result.now ≡ (lines self.now).slots }
    {
        &self.slot[..self.slots]
    }

    // The processes, by number.
    pub fn process_lines(&self) -> &[Process]
        requires { Few self.now }
        ensures { map process_of result.now ≡ (lines self.now).processes }
    {
        &self.process[..self.processes]
    }

    // The conditions, each as the process that it names.
    pub fn condition_lines(&self) -> &[u32]
        requires { Few self.now }
        ensures { result.now ≡ (lines self.now).conditions }
    {
        &self.condition[..self.conditions]
    }

    // The edges, by number.
    pub fn edge_lines(&self) -> &[Edge]
        requires { Few self.now }
        ensures { map edge_of result.now ≡ (lines self.now).edges }
    {
        &self.edge[..self.edges]
    }
}
