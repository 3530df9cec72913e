// The lines that `pair` prints, each written to a lent area.
#![tactic(auto)]

pub mod line;
