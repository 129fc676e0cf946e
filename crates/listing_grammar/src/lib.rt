// A listing text read from left to right, in specs/, and laws on it: a text states at most one listing, and the
// planner's own is read as it was planned.
// Document 02, point 2: "a listing as printed in document 01"
#![tactic(auto)]
