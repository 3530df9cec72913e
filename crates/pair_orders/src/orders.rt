// Two scripts run one after the other.
ghost use Rattle.std.specs.Prelude.{◌≡◌, true};
ghost use Rattle.plan_table.specs.Packed.{fits};
ghost use Rattle.pair_orders.specs.Orders.{ending, ending_told, order, order_told, swap};

use plan_table::{Reason, Script, Table};
use run::lent;

// How a run ended that is not refused: the items of its answer; the table after it.
#[derive(Clone, Copy)]
struct Ending {
    items: usize,
    table: Table,
}

// How an order ended that is not refused: the items of the two answers and the rows at the end.
#[derive(Clone, Copy)]
pub struct Ended {
    pub first: usize,
    pub second: usize,
    pub rows: usize,
}

// An order refused: which script, and why.
#[derive(Clone, Copy, Debug, PartialEq, Eq)]
pub struct Refused {
    pub script: Script,
    pub reason: Reason,
}

// Runs a script on a table that fits, in areas of its own; so does the table after it.
fn run_alone(mut table: Table, script: &[u8]) -> Result<Ending, Reason>
    requires { fits table ≡ true }
    ensures value { ending_told table result ≡ ending table script.now }
    ensures table_value { fits (ending_told table result).table ≡ true }
{
    let mut answer = [0; run::ANSWER];
    let mut history = [0; run::HISTORY];
    let mut work = [0; run::WORK];
    let ended = lent::fitting(&mut table, script, &mut answer, &mut history, &mut work).map_err(
        |refusal| refusal.reason,
    )?;
    Ok(Ending {
        items: ended.items,
        table,
    })
}

// Runs two scripts on a table that fits, the second on the table as the first left it; after a refusal no script runs.
pub fn in_order(table: Table, leads: &[u8], follows: &[u8]) -> Result<Ended, Refused>
    requires { fits table ≡ true }
    ensures { order_told result ≡ order table leads.now follows.now }
{
    let one = run_alone(table, leads).map_err(|reason| Refused {
        script: Script::First,
        reason,
    })?;
    let two = run_alone(one.table, follows).map_err(|reason| Refused {
        script: Script::Second,
        reason,
    })?;
    Ok(Ended {
        first: one.items,
        second: two.items,
        rows: two.table.count,
    })
}

// An order whose leading script is the second: each script under its own number.
pub fn swapped(order: Result<Ended, Refused>) -> Result<Ended, Refused>
    ensures { order_told result ≡ swap (order_told order) }
{
    match order {
        Ok(ended) => Ok(Ended {
            first: ended.second,
            second: ended.first,
            rows: ended.rows,
        }),
        Err(refused) => Err(Refused {
            script: refused.script.other(),
            reason: refused.reason,
        }),
    }
}
