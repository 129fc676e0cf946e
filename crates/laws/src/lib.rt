// Theorems about the definitions of documents 01 and 02, for every plan that passes refusals 2 to 9: proofs/Lib.antt is
// the reader's guide.
// Document 01: "No delay exceeds all ticks added up plus 2 × round × (edges + conditions)."
#![tactic(auto)]
