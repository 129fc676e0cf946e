// The three demands of the customer as theorems over calls of the functions that users call: the statements are in
// specs/, the proofs in proofs/.
// Document 01: "Demand 3 makes a single claim about the whole run, with all its lookups, and not one for each lookup or
// tick."
#![tactic(auto)]
