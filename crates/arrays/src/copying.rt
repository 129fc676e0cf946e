// Numbers copied from one array into another.
ghost use Rattle.std.specs.Prelude.{◌≡◌, ◌+◌, ◌≤◌, length};
ghost use Rattle.std.proofs.lemmas.List.Edits.{sets};
ghost use Rattle.std.proofs.Math.Seq.{slice};

// Stores the numbers of `from` in `to`, from place `at` on. By an index: copy_from_slice was tried, and the compiler
// then keeps 19,440 bytes more on the stack where a plan is laid out, two copies of it.
pub fn copy_at(from: &[u32], to: &mut [u32], at: usize)
    requires { at + length from.now ≤ length to.old }
    ensures { to.new ≡ sets to.old at from.now }
{
    for i in 0..from.len() {
        to[at + i] = from[i];
    }
}

// Stores n numbers of `from`, from place `at` on, as the first of `to`.
pub fn copy_part(from: &[u32], at: usize, n: usize, to: &mut [u32])
    requires { (at + n ≤ length from.now) × (n ≤ length to.old) }
    ensures { to.new ≡ sets to.old 0 (slice at (at + n) from.now) }
{
    let end = at + n;
    copy_at(&from[at..end], to, 0);
}
