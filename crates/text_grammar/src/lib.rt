// The plan text as a function on lists of bytes, in specs/; proofs/ shows that it reads exactly the printed forms, and
// that every text has exactly one answer. No code.
// Document 01: "One bracket form a line, single spaces, each line ended by a line feed; numbers have one to nine
// decimal digits and no needless leading zero."
#![tactic(auto)]
