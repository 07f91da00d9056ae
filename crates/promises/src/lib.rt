// The promises of version four, as theorems in proofs/. There is no code here.
#![tactic(auto)]

pub fn nothing() {}
