// The C interface (include/yegnabit.h): the calls of crates/yegnabit, with their contracts, exported. A slice is a pointer and a length.
#![tactic(auto)]

ghost use Rattle.std.specs.Prelude.{◌≡◌};
ghost use Rattle.c_codes.specs.Codes.{code_of};
ghost use Rattle.yegnabit.specs.Calls.{plan_values, plan_out, sweep_values, sweep_out, undo_values, undo_out, analyse_values};
ghost use Rattle.yegnabit.specs.Running.{run_called};

// Reads a plan and writes it back to out, which needs room for any plan.
#[unsafe(no_mangle)]
pub extern "C" fn yegnabit_plan(plan: &[u8], out: &mut [u8]) -> u64
    ensures value { result ≡ code_of (plan_values plan.now out.old) }
    ensures out_after { out.new ≡ plan_out plan.now out.old }
{
    yegnabit::yegnabit_plan(plan, out)
}

// Reads a plan, sweeps it, and writes it to out.
#[unsafe(no_mangle)]
pub extern "C" fn yegnabit_sweep(plan: &[u8], out: &mut [u8]) -> u64
    ensures value { result ≡ code_of (sweep_values plan.now out.old) }
    ensures out_after { out.new ≡ sweep_out plan.now out.old }
{
    yegnabit::yegnabit_sweep(plan, out)
}

// Reads a plan, takes a run back by its history, and writes it to out.
#[unsafe(no_mangle)]
pub extern "C" fn yegnabit_undo(plan: &[u8], history: &[u8], out: &mut [u8]) -> u64
    ensures value { result ≡ code_of (undo_values plan.now history.now out.old) }
    ensures out_after { out.new ≡ undo_out plan.now history.now out.old }
{
    yegnabit::yegnabit_undo(plan, history, out)
}

// Reads a plan, runs a script on it in the lent areas, and writes the plan as it then is to out. done takes six numbers: items of the
// answer, rows made, links cut, records written, history bytes, bytes in out. An area too short is 11 before all else and nothing is
// touched; refused after that, out is as it was, and answer, history, work and the six numbers are zero.
#[unsafe(no_mangle)]
pub extern "C" fn yegnabit_run(
    plan: &[u8],
    script: &[u8],
    answer: &mut [u16],
    history: &mut [u8],
    work: &mut [u16],
    out: &mut [u8],
    done: &mut [u64],
) -> u64
    ensures value { result ≡ code_of (run_called plan.now script.now answer.old
        history.old work.old out.old done.old).values }
    ensures answer_after { answer.new ≡ (run_called plan.now script.now answer.old
        history.old work.old out.old done.old).answer }
    ensures history_after { history.new ≡ (run_called plan.now script.now answer.old
        history.old work.old out.old done.old).history }
    ensures work_after { work.new ≡ (run_called plan.now script.now answer.old
        history.old work.old out.old done.old).work }
    ensures out_after { out.new ≡ (run_called plan.now script.now answer.old
        history.old work.old out.old done.old).out }
    ensures done_after { done.new ≡ (run_called plan.now script.now answer.old
        history.old work.old out.old done.old).done }
{
    yegnabit::yegnabit_run(plan, script, answer, history, work, out, done)
}

// Analyses two scripts: a refusal is the first's, which 1, or the second's, which 2; else which is the answer: 0 free, 1 upward, 2 meet.
#[unsafe(no_mangle)]
pub extern "C" fn yegnabit_analyse(first: &[u8], second: &[u8]) -> u64
    ensures { result ≡ code_of (analyse_values first.now second.now) }
{
    yegnabit::yegnabit_analyse(first, second)
}
