// Numbers and arrays of numbers, for every family: a number as an index, arrays of zeros, and numbers copied from one
// array into another. Nothing here speaks of planning.
// Document 01: "plan arrays of 128 edges made as [v; 128], the plan struct starting empty"
#![tactic(auto)]

mod copying;
mod numbers;
mod zero_arrays;

pub use copying::{copy_at, copy_part};
pub use numbers::wide;
pub use zero_arrays::zeros;
