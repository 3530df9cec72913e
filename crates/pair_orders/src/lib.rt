// Two scripts run one after the other on a plan.
#![tactic(auto)]

pub mod orders;
