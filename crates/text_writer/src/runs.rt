// The lines of one kind of a plan put into lent bytes from a place on, one after another: the bytes that lie within are
// stored, and all are counted.
ghost use Rattle.lists.specs.Lists.{each};
ghost use Rattle.text_lines.specs.Put.{Counts, Put};

use crate::lines::Line;

// Puts lines of one kind.
pub(crate) fn put_lines<L: Line>(out: &mut [u8], at: usize, lines: &[L]) -> usize
    requires { Counts at (each L.line lines.now) }
    ensures { Put out.old out.new at result (each L.line lines.now) }
{
    let mut end = at;
    for &line in lines {
        end = line.put(out, end);
    }
    end
}
