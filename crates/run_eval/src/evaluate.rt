// The evaluator: runs an accepted script in place. The work area is a stack of values; what is below top belongs to the callers.
ghost use Rattle.model.specs.Script.{if_kind, for_kind};
ghost use Rattle.script_records.specs.Kinds.{byte_of};
ghost use Rattle.script_records.specs.Walk.{end_at};
ghost use Rattle.script.specs.Accepted.{Accepted};
ghost use Rattle.run_query.specs.Index.{IndexHeld};
ghost use Rattle.run_updates.specs.State.{going};
ghost use Rattle.run_operators.specs.Machine.{going_on, came_out, frame, machine, begun};
ghost use Rattle.run_operators.specs.Evaluating.{EvalPre, EvalPost};
ghost use Rattle.run_eval.specs.Loops.{loop_of, EachPre, EachPost};
ghost use Rattle.run_eval.specs.Rests.{binary_rest, for_rest, if_rest, RestPre, RestPost};

use plan_table::{Refusal, Table};
use run_operators::record::{Evaluated, Operator};
use run_operators::value::Span;
use run_operators::{record, value};
use run_updates::state::Progress;
use script_records::kinds::Kind;
use script_records::walk;

// What a run reads and never changes: an accepted script, the marks and the index.
#[derive(Clone, Copy)]
pub struct Program<'a> {
    pub script: &'a [u8],
    pub marks: &'a [u16],
    pub index: &'a [u16],
}

// A join, an insert or a let after its first operand, x: the second value stands behind the first.
#[cycle(binary_branch_each_eval_iterate)]
fn binary(
    program: &Program<'_>,
    kind: Kind,
    at: usize,
    left: usize,
    bound: usize,
    rows: &mut [u32],
    history: &mut [u8],
    work: &mut [u16],
    top: usize,
    x: Evaluated,
) -> Result<Evaluated, Refusal>
    requires rest_pre { RestPre program.now.script.now (byte_of kind) left (frame bound program.now.marks.now top)
        (machine rows.old history.old work.old (going_on x)) }
    requires index_held { IndexHeld program.now.index.now rows.old x.progress.count }
    ensures { RestPost (binary_rest program.now.script.now (byte_of kind) at left) (end_at program.now.script.now x.place)
        (frame bound program.now.marks.now top) (machine rows.old history.old work.old (going_on x))
        (machine rows.new history.new work.new (came_out result)) }
{
    let mid = x.end;
    let scope = x.env;
    let q = x.progress;
    let inside = value::bind(kind, scope, bound, top, mid);
    let j = x.place;
    let n = kind.inner(bound);
    let y = eval(program, j, left, n, inside, rows, history, work, mid, q)?;
    record::combined(kind, at, rows, history, work, top, mid, y)
}

// An if after its first operand, x: the second operand where x is not empty, else the third.
#[cycle(binary_branch_each_eval_iterate)]
fn branch(
    program: &Program<'_>,
    left: usize,
    bound: usize,
    rows: &mut [u32],
    history: &mut [u8],
    work: &mut [u16],
    top: usize,
    x: Evaluated,
) -> Result<Evaluated, Refusal>
    requires rest_pre { RestPre program.now.script.now if_kind left (frame bound program.now.marks.now top)
        (machine rows.old history.old work.old (going_on x)) }
    requires accepted { Accepted program.now.script.now (end_at program.now.script.now x.place) left bound }
    requires index_held { IndexHeld program.now.index.now rows.old x.progress.count }
    ensures { RestPost (if_rest program.now.script.now left)
        (end_at program.now.script.now (end_at program.now.script.now x.place))
        (frame bound program.now.marks.now top) (machine rows.old history.old work.old (going_on x))
        (machine rows.new history.new work.new (came_out result)) }
{
    let scope = x.env;
    let q = x.progress;
    if x.end == top {
        let j = walk::end_at(program.script, x.place);
        return eval(program, j, left, bound, scope, rows, history, work, top, q);
    }
    let j = x.place;
    let y = eval(program, j, left, bound, scope, rows, history, work, top, q)?;
    Ok(record::past(program.script, y))
}

// A for after its first operand, x: its items stand from top on, its results behind them.
#[cycle(binary_branch_each_eval_iterate)]
fn iterate(
    program: &Program<'_>,
    at: usize,
    left: usize,
    bound: usize,
    rows: &mut [u32],
    history: &mut [u8],
    work: &mut [u16],
    top: usize,
    x: Evaluated,
) -> Result<Evaluated, Refusal>
    requires rest_pre { RestPre program.now.script.now for_kind left (frame bound program.now.marks.now top)
        (machine rows.old history.old work.old (going_on x)) }
    requires index_held { IndexHeld program.now.index.now rows.old x.progress.count }
    ensures { RestPost (for_rest program.now.script.now at left) (end_at program.now.script.now x.place)
        (frame bound program.now.marks.now top) (machine rows.old history.old work.old (going_on x))
        (machine rows.new history.new work.new (came_out result)) }
{
    let mid = x.end;
    let scope = x.env;
    let q = x.progress;
    if mid == top {
        return Ok(record::past(program.script, x));
    }
    let y = each(
        program, at, x.place, left, bound, scope, rows, history, work, top, mid, mid, mid, q,
    )?;
    record::combined(Kind::For, at, rows, history, work, top, mid, y)
}

// The items between two places: the first, then the others by halves. The results so far stand from top to end. 8 is at the for's place.
#[cycle(binary_branch_each_eval_iterate)]
fn each(
    program: &Program<'_>,
    place: usize,
    at: usize,
    left: usize,
    bound: usize,
    env: [Span; Table::BINDERS],
    rows: &mut [u32],
    history: &mut [u8],
    work: &mut [u16],
    from: usize,
    to: usize,
    top: usize,
    end: usize,
    p: Progress,
) -> Result<Evaluated, Refusal>
    requires each_pre { EachPre program.now.script.now left (loop_of place from to) (frame bound program.now.marks.now top)
        (machine rows.old history.old work.old (begun (going p) at end env)) }
    requires index_held { IndexHeld program.now.index.now rows.old p.count }
    ensures { EachPost program.now.script.now left (loop_of place from to) (frame bound program.now.marks.now top)
        (machine rows.old history.old work.old (begun (going p) at end env))
        (machine rows.new history.new work.new (came_out result)) }
{
    let next = from + 1;
    let inside = value::bind(Kind::For, env, bound, from, next);
    let n = bound + 1;
    let y = eval(program, at, left, n, inside, rows, history, work, end, p)?;
    let first = record::limited(y, top, place)?;
    if next == to {
        return Ok(first);
    }
    let inner = first.env;
    let r = first.progress;
    let half = next + (to - from) / 2;
    let x = each(
        program, place, at, left, bound, inner, rows, history, work, next, half, top, first.end, r,
    )?;
    if half == to {
        return Ok(x);
    }
    let scope = x.env;
    let q = x.progress;
    each(
        program, place, at, left, bound, scope, rows, history, work, half, to, top, x.end, q,
    )
}

// The expression at a place, its value to stand from top on.
#[cycle(binary_branch_each_eval_iterate)]
pub fn eval(
    program: &Program<'_>,
    at: usize,
    left: usize,
    bound: usize,
    env: [Span; Table::BINDERS],
    rows: &mut [u32],
    history: &mut [u8],
    work: &mut [u16],
    top: usize,
    p: Progress,
) -> Result<Evaluated, Refusal>
    requires eval_pre { EvalPre program.now.script.now left (frame bound program.now.marks.now top)
        (machine rows.old history.old work.old (begun (going p) at top env)) }
    requires index_held { IndexHeld program.now.index.now rows.old p.count }
    ensures { EvalPost program.now.script.now left (frame bound program.now.marks.now top)
        (machine rows.old history.old work.old (begun (going p) at top env))
        (machine rows.new history.new work.new (came_out result)) }
{
    let kind = Kind::try_from(program.script[at]).unwrap();
    let operands = kind.arity();
    if operands == 0 {
        return record::nullary(
            kind,
            program.script,
            at,
            left,
            bound,
            env,
            program.marks,
            rows,
            history,
            work,
            top,
            p,
        );
    }
    let i = at + (1 + kind.body_size());
    let k = left - 1;
    let x = eval(program, i, k, bound, env, rows, history, work, top, p)?;
    if operands == 1 {
        let operator = Operator::read(kind, program.script, at);
        return Ok(record::applied(operator, program.index, rows, history, work, top, x));
    }
    match kind {
        Kind::If => branch(program, k, bound, rows, history, work, top, x),
        Kind::For => iterate(program, at, k, bound, rows, history, work, top, x),
        // A join, a let or an insert.
        _ => binary(program, kind, at, k, bound, rows, history, work, top, x),
    }
}
