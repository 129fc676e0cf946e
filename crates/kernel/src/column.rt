// Whether what a unit has heard meets an entry's column.
ghost use Rattle.std.specs.Prelude.{◌≡◌};
ghost use Rattle.model.specs.Table.{bits_met};

// Whether an entry's known bits are all heard, with the heard values at those bits.
pub(crate) fn column_met(known: u32, values: u32, heard: u32, told: u32) -> bool
    ensures { result ≡ bits_met 32 known values heard told }
{
    known & heard == known && values & known == told & known
}
