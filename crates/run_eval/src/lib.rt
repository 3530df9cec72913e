// The evaluator of an accepted script.
#![tactic(auto)]

pub mod evaluate;
