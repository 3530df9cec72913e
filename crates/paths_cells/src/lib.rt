// The table of pairs of positions: which relations of a pair are marked.
#![tactic(auto)]

pub mod pairs;
