// The sweep: drops the rows that no document reaches.
#![tactic(auto)]

ghost use Rattle.std.specs.Prelude.{◌≡◌};
ghost use Rattle.plan_table.specs.Results.{table_by};
ghost use Rattle.plan_sweep.specs.Sweeping.{plan_swept};

use plan_table::{Reason, Refusal, Refused, Table, fit};

pub mod sweep;

// Drops each row that is neither marked nor below a marked row; refused, the table is as it was handed in.
pub fn sweep_table(table: Table) -> Result<Table, Refused<Table>>
    ensures { table_by result ≡ plan_swept table }
{
    if !fit::fits(&table) {
        let refusal = Refusal {
            reason: Reason::Link,
            place: 0,
        };
        return Err(Refused {
            refusal,
            left: table,
        });
    }
    Ok(sweep::fitting(&table))
}
