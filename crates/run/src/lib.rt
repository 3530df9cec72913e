// Runs a script on a plan.
#![tactic(auto)]

ghost use Rattle.std.specs.Prelude.{◌≡◌};
ghost use Rattle.run.specs.Calls.{ran, run_by, run_result, given_back};

use plan_table::{Reason, Refusal, Refused, Table, fit};
use run_updates::tally::Tally;

pub mod lengths;
pub mod lent;

// What a run needs of each lent area.
pub const ANSWER: usize = Table::ITEMS;

pub const HISTORY: usize = 12288;

pub const WORK: usize = 32768;

// What a run gives back: the table, the items of the answer, the bytes of the history, the tally.
#[derive(Clone, Copy)]
pub struct RunResult {
    pub table: Table,
    pub items: usize,
    pub bytes: usize,
    pub tally: Tally,
}

// A run refused: the table as it was handed in, and all else zero.
fn refused(refusal: Refusal, table: Table) -> Refused<RunResult>
    ensures { result ≡ given_back refusal table }
{
    let left = RunResult {
        table,
        items: 0,
        bytes: 0,
        tally: Tally::none(),
    };
    Refused { refusal, left }
}

// Runs a script on a table in lent areas. Refused, the table is as it was and all areas are zero, but untouched on 11;
// else answer and history stand at the front of their areas, the rest of these and all of the work area is zero.
pub fn run(
    table: Table,
    script: &[u8],
    answer: &mut [u16],
    history: &mut [u8],
    work: &mut [u16],
) -> Result<RunResult, Refused<RunResult>>
    ensures value { run_by result ≡ run_result table script.now answer.old history.old work.old }
    ensures answer_after { answer.new ≡
        (ran table script.now answer.old history.old work.old).answer }
    ensures history_after { history.new ≡
        (ran table script.now answer.old history.old work.old).history }
    ensures work_after { work.new ≡
        (ran table script.now answer.old history.old work.old).work }
{
    if !lengths::fit(answer.len(), history.len(), work.len()) {
        let refusal = Refusal {
            reason: Reason::Lent,
            place: 0,
        };
        return Err(refused(refusal, table));
    }
    if !fit::fits(&table) {
        answer.fill(0);
        history.fill(0);
        work.fill(0);
        let refusal = Refusal {
            reason: Reason::Link,
            place: 0,
        };
        return Err(refused(refusal, table));
    }
    let mut later = table;
    match lent::fitting(&mut later, script, answer, history, work) {
        Ok(ended) => {
            let tally = ended.tally;
            Ok(RunResult {
                table: later,
                items: ended.items,
                bytes: ended.bytes,
                tally,
            })
        }
        Err(refusal) => Err(refused(refusal, table)),
    }
}
