// A run on a lent table that fits, in areas that are long enough.
ghost use Rattle.std.specs.Prelude.{◌≡◌, true, ◌≤◌, length, OnErr};
ghost use Rattle.model.specs.Base.{at_front};
ghost use Rattle.model.specs.Call.{areas_fit};
ghost use Rattle.model.specs.Limits.{max_depth};
ghost use Rattle.plan_table.specs.Packed.{fits};
ghost use Rattle.run_operators.specs.Evaluating.{EvalPre, EvalPost};
ghost use Rattle.run_operators.specs.Machine.{came_out, frame, machine, begun};
ghost use Rattle.run_updates.specs.State.{going};
ghost use Rattle.run.specs.Calls.{ended_by, ran, run_result, result_in, RunPre, RunPost};

use plan_table::{Refusal, Table};
use run_eval::evaluate::{self, Program};
use run_operators::record::Evaluated;
use run_operators::value::Span;
use run_query::index;
use run_updates::state::Progress;
use run_updates::tally::Tally;
use script_records::kinds::Kind;

// How a run ended that is not refused: the items of the answer, the bytes of the history, the tally.
#[derive(Clone, Copy)]
pub struct Ended {
    pub items: usize,
    pub bytes: usize,
    pub tally: Tally,
}

// Evaluates an accepted script. The index of the rows is built where the script may loop, as some byte of it is a for's kind: without a
// loop it takes longer than it saves.
fn evaluated(
    script: &[u8],
    env: [Span; Table::BINDERS],
    marks: &[u16],
    rows: &mut [u32],
    history: &mut [u8],
    work: &mut [u16],
    p: Progress,
) -> Result<Evaluated, Refusal>
    requires { EvalPre script.now max_depth (frame 0 marks.now 0)
        (machine rows.old history.old work.old (begun (going p) 0 0 env)) }
    ensures { EvalPost script.now max_depth (frame 0 marks.now 0)
        (machine rows.old history.old work.old (begun (going p) 0 0 env))
        (machine rows.new history.new work.new (came_out result)) }
{
    if !script.contains(&(Kind::For as u8)) {
        let none = [0u16; 1];
        let program = Program {
            script,
            marks,
            index: &none,
        };
        return evaluate::eval(&program, 0, Table::DEPTH, 0, env, rows, history, work, 0, p);
    }
    let mut index = [0u16; index::SIZE];
    index::build(rows, p.count, &mut index);
    let program = Program {
        script,
        marks,
        index: &index,
    };
    evaluate::eval(&program, 0, Table::DEPTH, 0, env, rows, history, work, 0, p)
}

// Puts a value at the front of an area, item by item: copy_from_slice calls memmove, which a C program would have to bring.
fn put(area: &mut [u16], value: &[u16])
    requires { length value.now ≤ length area.old }
    ensures { area.new ≡ at_front value.now area.old }
{
    for j in 0..value.len() {
        area[j] = value[j];
    }
}

// The run, answer and history cleared.
fn run_in(
    table: &mut Table,
    script: &[u8],
    answer: &mut [u16],
    history: &mut [u8],
    work: &mut [u16],
) -> Result<Ended, Refusal>
    requires fits { fits table.old ≡ true }
    requires run_pre { RunPre answer.old history.old work.old }
    ensures run_post { RunPost table.old script.now answer.old history.old work.old
        table.new answer.new history.new (ended_by result) }
    ensures marks_after { table.new.marks ≡ table.old.marks }
    ensures count_after { OnErr result (table.new.count ≡ table.old.count) }
{
    script::read_script(script)?;
    let unbound = [Span { start: 0, len: 0 }; Table::BINDERS];
    // Not '?': a refusal clears the history first.
    let x = match evaluated(
        script,
        unbound,
        &table.marks,
        &mut table.rows,
        history,
        work,
        Progress::start(table.count),
    ) {
        Ok(x) => x,
        Err(refusal) => {
            history.fill(0);
            return Err(refusal);
        }
    };
    let items = x.end;
    put(answer, &work[0..items]);
    let p = x.progress;
    let tally = p.tally;
    table.count = p.count;
    Ok(Ended {
        items,
        bytes: p.bytes,
        tally,
    })
}

// Runs a script on a table that fits; refused, what its rows then hold is not said. The areas are left as by the call `run`.
pub fn fitting(
    table: &mut Table,
    script: &[u8],
    answer: &mut [u16],
    history: &mut [u8],
    work: &mut [u16],
) -> Result<Ended, Refusal>
    requires fits { fits table.old ≡ true }
    requires work_value { areas_fit answer.old history.old work.old ≡ true }
    ensures table_after { result_in table.old (ended_by result) table.new ≡
        run_result table.old script.now answer.old history.old work.old }
    ensures marks_after { table.new.marks ≡ table.old.marks }
    ensures count_after { OnErr result (table.new.count ≡ table.old.count) }
    ensures answer_after { answer.new ≡
        (ran table.old script.now answer.old history.old work.old).answer }
    ensures history_after { history.new ≡
        (ran table.old script.now answer.old history.old work.old).history }
    ensures work_after { work.new ≡
        (ran table.old script.now answer.old history.old work.old).work }
{
    answer.fill(0);
    history.fill(0);
    let ended = run_in(table, script, answer, history, work);
    work.fill(0);
    ended
}
