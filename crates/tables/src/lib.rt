// Holds specs/ alone: document 01's tables once more, in plain numbers, and their comparison with `meaning` by computation.
#![tactic(auto)]

pub fn nothing() {}
