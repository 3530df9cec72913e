// Reading a stored plan into the packed rows of a table.
#![tactic(auto)]

pub mod read;
