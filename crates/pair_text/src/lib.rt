// Texts and decimal numbers, written into an area.
#![tactic(auto)]

pub mod number;
pub mod text;
