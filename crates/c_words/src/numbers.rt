// The number in which other software is answered.
ghost use Rattle.std.specs.Prelude.{◌≡◌, ◌-◌};
ghost use Rattle.refusals.specs.Numbers.{numbered};
ghost use Rattle.c_words.specs.Numbers.{answer_number};

use refusals::Refusal;

// Refusal n is 2^64 - 1 less n.
pub fn refused(n: u32) -> u64
    ensures { result ≡ 18446744073709551615 - n }
{
    u64::MAX - u64::from(n)
}

// An answer with the number of what refuses.
pub fn numbered<T>(answer: Result<T, Refusal>) -> Result<T, u32>
    ensures { result ≡ numbered answer }
{
    match answer {
        Ok(x) => Ok(x),
        Err(refusal) => Err(refusal.number()),
    }
}

// A count or another number as it stands, or refusal n as 2^64 - 1 less n.
pub fn answered(answer: Result<usize, Refusal>) -> u64
    ensures { result ≡ answer_number (numbered answer) }
{
    match answer {
        Ok(number) => number as u64,
        Err(refusal) => refused(refusal.number()),
    }
}
