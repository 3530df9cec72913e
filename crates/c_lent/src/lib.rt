// The areas lent to the C calls.
#![tactic(auto)]

use plan_table::{Table, stored};

pub mod done;

// The bytes that out needs: a record for each row and mark of the longest plan.
pub const OUT: usize = stored::SIZE * (Table::ROWS + Table::DOCUMENTS);
