// The calls of the C interface, which crates/yegnabit_c exports; nothing is kept. Each answers number + 256 × which + 65,536 × place,
// number 0 where nothing is refused; which says whose refusal it is: 0 a lent area's, 1 the plan's,
// 2 the script's, the run's or the history's.
#![tactic(auto)]

ghost use Rattle.std.specs.Prelude.{◌≡◌};
ghost use Rattle.c_codes.specs.Codes.{code_of, refused_values};
ghost use Rattle.yegnabit.specs.Calls.{plan_values, plan_out, sweep_values, sweep_out, undo_values, undo_out, analyse_values};
ghost use Rattle.yegnabit.specs.Running.{run_called};

use c_codes::answer;
use c_codes::answer::Whose;
use c_lent::done::DONE;
use c_lent::{OUT, done};
use paths::Answer;
use plan_reader::read;
use plan_sweep::sweep;
use plan_table::{Refusal, Table};
use run::lent;
use run_undo::undoing;

// The plan's refusal.
fn plan_refused(refusal: Refusal) -> u64
    ensures { result ≡ code_of (refused_values 1 refusal) }
{
    answer::refused(Whose::Plan, refusal)
}

// Reads a plan and writes it back to out, which needs room for any plan.
pub fn yegnabit_plan(plan: &[u8], out: &mut [u8]) -> u64
    ensures value { result ≡ code_of (plan_values plan.now out.old) }
    ensures out_after { out.new ≡ plan_out plan.now out.old }
{
    if out.len() < OUT {
        return answer::lent_short();
    }
    let mut table = Table::empty();
    table.count = match read::records(plan, &mut table.rows, &mut table.marks) {
        Ok(count) => count,
        Err(refusal) => return plan_refused(refusal),
    };
    answer::finish(&table, out)
}

// Reads a plan, sweeps it, and writes it to out.
pub fn yegnabit_sweep(plan: &[u8], out: &mut [u8]) -> u64
    ensures value { result ≡ code_of (sweep_values plan.now out.old) }
    ensures out_after { out.new ≡ sweep_out plan.now out.old }
{
    if out.len() < OUT {
        return answer::lent_short();
    }
    let mut table = Table::empty();
    table.count = match read::records(plan, &mut table.rows, &mut table.marks) {
        Ok(count) => count,
        Err(refusal) => return plan_refused(refusal),
    };
    let swept = sweep::fitting(&table);
    answer::finish(&swept, out)
}

// Reads a plan, takes a run back by its history, and writes it to out.
pub fn yegnabit_undo(plan: &[u8], history: &[u8], out: &mut [u8]) -> u64
    ensures value { result ≡ code_of (undo_values plan.now history.now out.old) }
    ensures out_after { out.new ≡ undo_out plan.now history.now out.old }
{
    if out.len() < OUT {
        return answer::lent_short();
    }
    let mut table = Table::empty();
    table.count = match read::records(plan, &mut table.rows, &mut table.marks) {
        Ok(count) => count,
        Err(refusal) => return plan_refused(refusal),
    };
    match undoing::fitting(&mut table, history) {
        Ok(()) => answer::finish(&table, out),
        Err(refusal) => answer::refused(Whose::Script, refusal),
    }
}

// Reads a plan, runs a script on it in the lent areas, and writes the plan as it then is to out. done takes six numbers: items of the
// answer, rows made, links cut, records written, history bytes, bytes in out. An area too short is 11 before all else and nothing is
// touched; refused after that, out is as it was, and answer, history, work and the six numbers are zero.
pub fn yegnabit_run(
    plan: &[u8],
    script: &[u8],
    answer: &mut [u16],
    history: &mut [u8],
    work: &mut [u16],
    out: &mut [u8],
    done: &mut [u64],
) -> u64
    ensures value { result ≡ code_of (run_called plan.now script.now answer.old
        history.old work.old out.old done.old).values }
    ensures answer_after { answer.new ≡ (run_called plan.now script.now answer.old
        history.old work.old out.old done.old).answer }
    ensures history_after { history.new ≡ (run_called plan.now script.now answer.old
        history.old work.old out.old done.old).history }
    ensures work_after { work.new ≡ (run_called plan.now script.now answer.old
        history.old work.old out.old done.old).work }
    ensures out_after { out.new ≡ (run_called plan.now script.now answer.old
        history.old work.old out.old done.old).out }
    ensures done_after { done.new ≡ (run_called plan.now script.now answer.old
        history.old work.old out.old done.old).done }
{
    if !done::fit(
        answer.len(),
        history.len(),
        work.len(),
        out.len(),
        done.len(),
    ) {
        return answer::lent_short();
    }
    let mut table = Table::empty();
    table.count = match read::records(plan, &mut table.rows, &mut table.marks) {
        Ok(count) => count,
        Err(refusal) => {
            done::clear(answer, history, work);
            done::put_done(done, [0; DONE]);
            return plan_refused(refusal);
        }
    };
    let ended = lent::fitting(&mut table, script, answer, history, work);
    done::end(ended, &table, out, done)
}

// Analyses two scripts: a refusal is the first's, which 1, or the second's, which 2; else which is the answer: 0 free, 1 upward, 2 meet.
pub fn yegnabit_analyse(first: &[u8], second: &[u8]) -> u64
    ensures { result ≡ code_of (analyse_values first.now second.now) }
{
    match paths::analyse(first, second) {
        Ok(Answer::Free) => answer::code(0, 0, 0),
        Ok(Answer::Upward) => answer::code(0, 1, 0),
        Ok(Answer::Meet) => answer::code(0, 2, 0),
        Err(refused) => answer::code(
            u8::from(refused.refusal.reason),
            u8::from(refused.script),
            refused.refusal.place,
        ),
    }
}
