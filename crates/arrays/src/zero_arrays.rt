// Arrays of zeros, of any size.
ghost use Rattle.std.specs.Prelude.{◌≡◌, replicate};

// As many zeros as the type says.
pub fn zeros<const N: usize>() -> [u32; N]
    ensures { result ≡ replicate N 0 }
{
    [0u32; N]
}
