// One row of the table of pairs: columns, what it needs of the second script's positions, and its marks, relation by relation.
#![tactic(auto)]

pub mod columns;
pub mod rows;
