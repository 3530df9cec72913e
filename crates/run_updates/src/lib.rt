// What expressions change in a plan: new rows and cut links, each with its record in the history, counted by the tally.
#![tactic(auto)]

pub mod history;
pub mod state;
pub mod tally;
pub mod update;
