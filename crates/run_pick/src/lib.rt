// The values that a pick keeps.
#![tactic(auto)]

pub mod pick;
