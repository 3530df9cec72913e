// Insert: copies of rows with all that is below them, each row with its record in the history.
#![tactic(auto)]

pub mod insert;
