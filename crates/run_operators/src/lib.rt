// Values in the work area, and what each record of a script does with those of its operands.
#![tactic(auto)]

pub mod record;
pub mod value;
