// Takes a run back by its history.
#![tactic(auto)]

ghost use Rattle.std.specs.Prelude.{◌≡◌};
ghost use Rattle.plan_table.specs.Results.{table_by};
ghost use Rattle.run_undo.specs.Undoing.{plan_undone};

use plan_table::{Reason, Refusal, Refused, Table, fit};

pub mod undoing;

// Takes a run back by its history. An ill-formed table is 6; refused, the table is as it was handed in.
pub fn undo(table: Table, history: &[u8]) -> Result<Table, Refused<Table>>
    ensures { table_by result ≡ plan_undone table history.now }
{
    if !fit::fits(&table) {
        let refusal = Refusal {
            reason: Reason::Link,
            place: 0,
        };
        return Err(Refused {
            refusal,
            left: table,
        });
    }
    let mut earlier = table;
    match undoing::fitting(&mut earlier, history) {
        Ok(()) => Ok(earlier),
        Err(refusal) => Err(Refused {
            refusal,
            left: table,
        }),
    }
}
