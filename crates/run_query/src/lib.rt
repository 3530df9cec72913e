// What steps find in a plan.
#![tactic(auto)]

pub mod index;
pub mod item;
pub mod step;
