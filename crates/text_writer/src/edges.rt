// The line of an edge put into lent bytes from a place on: the bytes that lie within are stored, and all are counted.
ghost use Rattle.model.specs.Text.{when_text, edge_line};
ghost use Rattle.plan.specs.Memory.{when_of, edge_of};
ghost use Rattle.text_lines.specs.Put.{Counts, Put};

use crate::lines::Line;
use plan::{Edge, When};
use text_lines::{put_labelled, put_word};

// Puts the `when` of an edge.
fn put_when(out: &mut [u8], at: usize, when: When) -> usize
    requires { Counts at (when_text (when_of when)) }
    ensures { Put out.old out.new at result (when_text (when_of when)) }
{
    match when {
        When::Always => put_word(out, at, b"always"),
        When::True(k) => {
            let end = put_labelled(out, at, b"(true ", k);
            put_word(out, end, b")")
        }
        When::False(k) => {
            let end = put_labelled(out, at, b"(false ", k);
            put_word(out, end, b")")
        }
    }
}

// The line of an edge.
impl Line for Edge {
    ghost line = { λ e. edge_line (edge_of e) };

    fn put(self, out: &mut [u8], at: usize) -> usize {
        let from = put_labelled(out, at, b"(edge (from ", self.from);
        let to = put_labelled(out, from, b") (to ", self.to);
        let bytes = put_labelled(out, to, b") (bytes ", self.bytes);
        let before = put_word(out, bytes, b") (when ");
        let when = self.when;
        let end = put_when(out, before, when);
        put_word(out, end, b"))\n")
    }
}
