// The planner and the checker agree: the theorem in proofs/Agreement.antt, over what the contracts of `plan_table` and
// `check_table` say.
// Document 01: "A table is sound, for a plan in which 2 to 9 find nothing and a stated delay, when 12 to 20 find
// nothing."
#![tactic(auto)]
