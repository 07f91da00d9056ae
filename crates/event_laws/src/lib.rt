// A table of events and a record under one. Definitions beside document 01's, and laws of both, stand in specs/.
#![tactic(auto)]

// A crate has a function; this one does nothing.
pub fn nothing() {}
