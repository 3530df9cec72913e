// The positions that a script accesses and modifies, emitted in one pass over its bytes.
#![tactic(auto)]

pub mod emit;
