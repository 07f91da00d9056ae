// Holds specs/ alone: the walk over a backward ring (M-109).
#![tactic(auto)]

pub fn nothing() {}
