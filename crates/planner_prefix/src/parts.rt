// A part of an array copied into a part of another, and zeros stored at the front of one.
ghost use Rattle.std.specs.Prelude.{◌≡◌, ◌+◌, ◌≤◌, length, replicate};
ghost use Rattle.std.proofs.lemmas.List.Edits.{sets};
ghost use Rattle.std.proofs.Math.Seq.{slice};

// Stores n numbers of `from`, from place `at` on, in `to` from place `place` on.
pub(crate) fn copy_numbers(from: &[u32], at: usize, n: usize, to: &mut [u32], place: usize)
    requires { (at + n ≤ length from.now) × (place + n ≤ length to.old) }
    ensures { to.new ≡ sets to.old place (slice at (at + n) from.now) }
{
    to[place..place + n].copy_from_slice(&from[at..at + n]);
}

// Stores n zeros at the front of `to`.
pub(crate) fn clear(to: &mut [u32], n: usize)
    requires { n ≤ length to.old }
    ensures { to.new ≡ sets to.old 0 (replicate n 0) }
{
    to[..n].fill(0);
}
