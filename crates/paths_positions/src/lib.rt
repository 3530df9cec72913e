// Positions: the paths of a script's expressions, numbered and packed.
#![tactic(auto)]

pub mod packed;

// Positions of a script, at most.
pub const POSITIONS: usize = 128;
