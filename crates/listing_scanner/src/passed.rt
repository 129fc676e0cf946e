// The passed lines.
ghost use Rattle.std.specs.Prelude.{◌≤◌, length, drop};
ghost use Rattle.listing_grammar.specs.Parse.{count_at};
ghost use Rattle.text_scanner.specs.Place.{Scanned, number};

use text_scanner::closed;

// The count that the passed line of a node at `at` has, and the position behind the line.
pub fn count_line(text: &[u8], at: usize, node: u32) -> Option<(u32, usize)>
    requires { at ≤ length text.now }
    ensures { Scanned text.now (number result) (count_at node (drop at text.now)) }
{
    let (n, i) = closed(text, at, b"(passed (node ", b" ")?;
    if n == node {
        return closed(text, i, b"", b"\n");
    }
    None
}
