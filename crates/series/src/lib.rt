// Holds specs/ alone: drains cut anywhere (M-113).
#![tactic(auto)]

pub fn nothing() {}
