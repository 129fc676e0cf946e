// The lines of the plan text, each put into lent bytes from a place on: the bytes that lie within are stored, and all
// are counted. Here each line but an edge's.
ghost use Rattle.std.specs.Prelude.{List, ℕ};
ghost use Rattle.model.specs.Text.{slot_line, process_line, condition_line, plan_line};
ghost use Rattle.plan.specs.Memory.{lines, slot_of, process_of};
ghost use Rattle.text_lines.specs.Put.{Counts, Put};

use plan::{Pick, Plan, Process, Slot, Waits};
use text_lines::{put_labelled, put_word};

// What a line of one kind says, and how it is put.
pub(crate) trait Line: Copy {
    ghost line: { Self → List ℕ };

    fn put(self, out: &mut [u8], at: usize) -> usize
        requires { Counts at (line self) }
        ensures { Put out.old out.new at result (line self) };
}

// Puts the plan line.
pub(crate) fn put_plan_line(out: &mut [u8], at: usize, p: Plan) -> usize
    requires { Counts at (plan_line (lines p).plan) }
    ensures { Put out.old out.new at result (plan_line (lines p).plan) }
{
    let line = p.line;
    let byte = put_labelled(out, at, b"(plan (byte ", line.byte);
    let head = put_labelled(out, byte, b") (head ", line.head);
    let pick = line.pick;
    match pick {
        Pick::Urgency => put_word(out, head, b") (pick urgency))\n"),
        Pick::Number => put_word(out, head, b") (pick number))\n"),
    }
}

// The line of a slot.
impl Line for Slot {
    ghost line = { λ s. slot_line (slot_of s) };

    fn put(self, out: &mut [u8], at: usize) -> usize {
        let node = put_labelled(out, at, b"(slot (node ", self.node);
        let bytes = put_labelled(out, node, b") (bytes ", self.bytes);
        put_word(out, bytes, b"))\n")
    }
}

// The line of a process.
impl Line for Process {
    ghost line = { λ q. process_line (process_of q) };

    fn put(self, out: &mut [u8], at: usize) -> usize {
        let node = put_labelled(out, at, b"(process (node ", self.node);
        let ticks = put_labelled(out, node, b") (ticks ", self.ticks);
        let waits = self.waits;
        match waits {
            Waits::All => put_word(out, ticks, b") (waits all))\n"),
            Waits::Any => put_word(out, ticks, b") (waits any))\n"),
        }
    }
}

// The line of a condition, which is the number of its process.
impl Line for u32 {
    ghost line = { condition_line };

    fn put(self, out: &mut [u8], at: usize) -> usize {
        let end = put_labelled(out, at, b"(condition (process ", self);
        put_word(out, end, b"))\n")
    }
}
