// The digits of the plan text's numbers, byte by byte.
ghost use Rattle.std.specs.Prelude.{◌-◌, ◌≤◌, ◌≡◌};
ghost use Rattle.text_grammar.specs.Parse.{goes_on};

// Whether the digit `b` may follow the digits of `n`: not a zero, and not nine digits.
pub(crate) fn may_follow(n: u32, b: u8) -> bool
    ensures { result ≡ goes_on n b }
{
    b.is_ascii_digit() && 0 < n && n <= 99999999
}

// The value of a digit.
pub(crate) fn value(b: u8) -> u32
    requires { 48 ≤ b }
    ensures { result ≡ b - 48 }
{
    u32::from(b - b'0')
}
