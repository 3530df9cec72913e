// Fills the table of pairs and answers whether two scripts' positions meet.
#![tactic(auto)]

pub mod meet;
