// A number as an index.
ghost use Rattle.std.specs.Prelude.{◌≡◌};

// A number as an index of an array. usize has no From<u32>: the cast has a name, and says that nothing is lost.
pub fn wide(x: u32) -> usize
    ensures { result ≡ x }
{
    x as usize
}
