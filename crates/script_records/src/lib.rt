// The records of a script: their kinds, their steps, the relations of a pick, and the place past an expression.
#![tactic(auto)]

pub mod kinds;
pub mod pick;
pub mod step;
pub mod walk;
