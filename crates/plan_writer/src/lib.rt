// Writing a table that fits in its stored form.
#![tactic(auto)]

pub mod write;
