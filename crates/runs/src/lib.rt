// Holds specs/ alone: what a run of the drain does, for any frame function and any judge; and what it does in a ring that is read forward.
#![tactic(auto)]

pub fn nothing() {}
