// A plan text read and written again, answered as one number.
// Document 01: "A refusal yields its number only, and every lent buffer keeps its contents"
#![tactic(auto)]

mod copy;

pub use copy::copy_text;
