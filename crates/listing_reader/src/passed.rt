// The passed lines, one for each node, read into numbers.
ghost use Rattle.std.specs.Prelude.{◌≡◌, ◌≤◌, length};
ghost use Rattle.limits.specs.Limits.{NODES};
ghost use Rattle.listing_reader.specs.Runs.{PassedRead};

use limits::NODES;
use listing_scanner::count_line;

// Reads the passed lines of as many nodes from `at` on, node 0's first, and stores their counts in that order: the
// position behind them. The listing is not of its form where the next line is not that of the next node.
pub(crate) fn read_passed(
    text: &[u8],
    at: usize,
    slots: u32,
    passed: &mut [u32; NODES],
) -> Option<usize>
    requires { (at ≤ length text.now) × (slots ≤ NODES) × (length passed.old ≡ NODES) }
    ensures { PassedRead text.now at slots passed.old passed.new result }
{
    let mut next = at;
    for node in 0u32..slots {
        let (count, i) = count_line(text, next, node)?;
        passed[node as usize] = count;
        next = i;
    }
    Some(next)
}
