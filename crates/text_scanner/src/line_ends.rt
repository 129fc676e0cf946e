// The ends of the plan text's lines at a position: `pick`, `waits` and `when`.
ghost use Rattle.std.specs.Prelude.{◌≤◌, length, drop};
ghost use Rattle.text_grammar.specs.Parse.{pick_at, waits_at, when_at};
ghost use Rattle.text_scanner.specs.Place.{Scanned};
ghost use Rattle.text_scanner.specs.LineEnds.{pick, waits, when};

use crate::words::{closed, word};
use plan::{Pick, Waits, When};

// The end of the plan line.
pub(crate) fn pick(text: &[u8], at: usize) -> Option<(Pick, usize)>
    requires { at ≤ length text.now }
    ensures { Scanned text.now (pick result) (pick_at (drop at text.now)) }
{
    if let Some(i) = word(text, at, b" (pick urgency))\n") {
        return Some((Pick::Urgency, i));
    }
    let i = word(text, at, b" (pick number))\n")?;
    Some((Pick::Number, i))
}

// The end of a process line.
pub(crate) fn waits(text: &[u8], at: usize) -> Option<(Waits, usize)>
    requires { at ≤ length text.now }
    ensures { Scanned text.now (waits result) (waits_at (drop at text.now)) }
{
    if let Some(i) = word(text, at, b" (waits all))\n") {
        return Some((Waits::All, i));
    }
    let i = word(text, at, b" (waits any))\n")?;
    Some((Waits::Any, i))
}

// The end of an edge line.
pub(crate) fn when(text: &[u8], at: usize) -> Option<(When, usize)>
    requires { at ≤ length text.now }
    ensures { Scanned text.now (when result) (when_at (drop at text.now)) }
{
    if let Some(i) = word(text, at, b" (when always))\n") {
        return Some((When::Always, i));
    }
    if let Some((k, i)) = closed(text, at, b" (when (true ", b"))\n") {
        return Some((When::True(k), i));
    }
    let (k, i) = closed(text, at, b" (when (false ", b"))\n")?;
    Some((When::False(k), i))
}
