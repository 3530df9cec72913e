// What every C call shares: the number that it answers, and the end of one that gives a table.
#![tactic(auto)]

pub mod answer;
