// Lists, tests and numbers: the general definitions are in specs/, their laws in proofs/. Nothing here speaks of
// planning.
// Document 01: "Each sentence is tried over the whole input before the next."
#![tactic(auto)]
