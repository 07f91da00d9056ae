// Holds specs/ alone: demand 3, once over all pairs of editions; what a drain counts and moves; which numbers are given.
#![tactic(auto)]

pub fn nothing() {}
