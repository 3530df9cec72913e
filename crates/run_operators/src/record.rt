// What a record does with the values of its operands.
ghost use Rattle.std.specs.Prelude.{◌≡◌, ◌≤◌, get_or};
ghost use Rattle.model.specs.Script.{arity};
ghost use Rattle.script_records.specs.Kinds.{byte_of};
ghost use Rattle.script_records.specs.Walk.{end_at};
ghost use Rattle.run_query.specs.Index.{IndexHeld};
ghost use Rattle.run_updates.specs.State.{going};
ghost use Rattle.run_operators.specs.Evaluating.{limited_by, moved_to, OperatorPre, OperatorPost, ValuePre, UnaryPost};
ghost use Rattle.run_operators.specs.Evaluating.{BinaryPre, BinaryPost, EvalPre, EvalPost};
ghost use Rattle.run_operators.specs.Machine.{going_on, came_out, frame, machine, begun};

use crate::value;
use crate::value::Span;
use plan_table::{Reason, Refusal, RowNumber, Table, number};
use run_insert::insert;
use run_pick::pick;
use run_query::step;
use run_updates::state::Progress;
use run_updates::update;
use script_records::kinds::Kind;
use script_records::pick::Relation;
use script_records::step::Step;
use script_records::walk;

// After an expression: how far the run has come; the place past it; the end of its value; the variables, an array by value that is handed
// back, since document 01 names this form.
#[derive(Clone, Copy)]
pub struct Evaluated {
    pub progress: Progress,
    pub place: usize,
    pub end: usize,
    pub env: [Span; Table::BINDERS],
}

// 8 at a place where the value from top on has passed the limit.
pub fn limited(x: Evaluated, top: usize, at: usize) -> Result<Evaluated, Refusal>
    requires { top ≤ x.end }
    ensures { came_out result ≡ limited_by (going_on x) top at }
{
    if x.end - top <= Table::ITEMS {
        return Ok(x);
    }
    Err(Refusal {
        reason: Reason::Items,
        place: at,
    })
}

// What x came to, with its place moved past the expression there, which is not run.
pub fn past(script: &[u8], x: Evaluated) -> Evaluated
    ensures { going_on result ≡ moved_to (end_at script.now x.place) (going_on x) }
{
    let p = x.progress;
    let env = x.env;
    Evaluated {
        progress: p,
        place: walk::end_at(script, x.place),
        end: x.end,
        env,
    }
}

// An expression without operands.
#[tactic(auto, unfolding(model::specs::Script::script_kinds))]
pub fn nullary(
    kind: Kind,
    script: &[u8],
    at: usize,
    left: usize,
    bound: usize,
    env: [Span; Table::BINDERS],
    marks: &[u16],
    rows: &mut [u32],
    history: &mut [u8],
    work: &mut [u16],
    top: usize,
    p: Progress,
) -> Result<Evaluated, Refusal>
    requires eval_pre { EvalPre script.now left (frame bound marks.now top)
        (machine rows.old history.old work.old (begun (going p) at top env)) }
    requires is { byte_of kind ≡ get_or script.now at 0 }
    requires at_value { arity (byte_of kind) ≡ 0 }
    ensures { EvalPost script.now left (frame bound marks.now top)
        (machine rows.old history.old work.old (begun (going p) at top env))
        (machine rows.new history.new work.new (came_out result)) }
{
    match kind {
        Kind::Nil => Ok(Evaluated {
            progress: p,
            place: at + 1,
            end: top,
            env,
        }),
        Kind::Document => {
            let end = value::document(marks, usize::from(script[at + 1]), work, top);
            Ok(Evaluated {
                progress: p,
                place: at + 2,
                end,
                env,
            })
        }
        Kind::Variable => {
            let s = env[usize::from(script[at + 1])];
            let from = usize::from(s.start);
            let to = from + usize::from(s.len);
            let end = value::copied(work, from, to, top);
            Ok(Evaluated {
                progress: p,
                place: at + 2,
                end,
                env,
            })
        }
        Kind::NewElement => {
            let name = number::name(script[at + 1]);
            let row = RowNumber(p.count);
            let q = update::new_element(rows, history, p, name).map_err(|reason| Refusal {
                reason,
                place: at,
            })?;
            let end = value::put_row(row, work, top);
            Ok(Evaluated {
                progress: q,
                place: at + 2,
                end,
                env,
            })
        }
        Kind::NewLeaf => {
            let value = script[at + 1];
            let row = RowNumber(p.count);
            let q = update::new_leaf(rows, history, p, value).map_err(|reason| Refusal {
                reason,
                place: at,
            })?;
            let end = value::put_row(row, work, top);
            Ok(Evaluated {
                progress: q,
                place: at + 2,
                end,
                env,
            })
        }
        Kind::Step | Kind::Join | Kind::Let | Kind::For | Kind::If => unreachable!(),
        Kind::Delete | Kind::Insert | Kind::Pick => unreachable!(),
    }
}

// A record with one operand, with the fields of its body.
#[derive(Clone, Copy)]
pub enum Operator {
    Step(Step),
    Delete,
    Pick(Relation, u8),
}

impl Operator {
    // That of the record at a place, whose fields are in range.
    #[tactic(auto, unfolding(model::specs::Script::script_kinds))]
    pub fn read(kind: Kind, script: &[u8], at: usize) -> Operator
        requires is { byte_of kind ≡ get_or script.now at 0 }
        requires operator_pre { OperatorPre script.now at }
        ensures { OperatorPost script.now at result }
    {
        match kind {
            Kind::Step => Operator::Step(Step::read(&script[at + 1..]).unwrap()),
            Kind::Delete => Operator::Delete,
            Kind::Pick => {
                let relation = Relation::try_from(script[at + 1]).unwrap();
                Operator::Pick(relation, script[at + 2])
            }
            Kind::Nil | Kind::Document | Kind::Variable | Kind::Join | Kind::Let => unreachable!(),
            Kind::For | Kind::If | Kind::NewElement | Kind::NewLeaf | Kind::Insert =>
                unreachable!(),
        }
    }
}

// What a record with one operand does with its value, which stands from top on: none of them refuses.
pub fn applied(
    operator: Operator,
    index: &[u16],
    rows: &mut [u32],
    history: &mut [u8],
    work: &mut [u16],
    top: usize,
    x: Evaluated,
) -> Evaluated
    requires value_pre { ValuePre top (machine rows.old history.old work.old (going_on x)) }
    requires index_held { IndexHeld index.now rows.old x.progress.count }
    ensures { UnaryPost operator top (machine rows.old history.old work.old (going_on x))
        (machine rows.new history.new work.new (going_on result)) }
{
    let p = x.progress;
    let env = x.env;
    let to = x.end;
    match operator {
        Operator::Step(step) => Evaluated {
            progress: p,
            place: x.place,
            end: step::stepped(rows, p.count, index, step, work, top, to),
            env,
        },
        Operator::Delete => Evaluated {
            progress: update::delete(rows, history, p, &work[top..to]),
            place: x.place,
            end: top,
            env,
        },
        Operator::Pick(relation, constant) => Evaluated {
            progress: p,
            place: x.place,
            end: pick::picked(rows, relation, constant, work, top, to),
            env,
        },
    }
}

// What a record with two operands does with their values, which stand from top and from mid on.
pub fn combined(
    kind: Kind,
    at: usize,
    rows: &mut [u32],
    history: &mut [u8],
    work: &mut [u16],
    top: usize,
    mid: usize,
    y: Evaluated,
) -> Result<Evaluated, Refusal>
    requires { BinaryPre top mid (machine rows.old history.old work.old (going_on y)) }
    ensures { BinaryPost (byte_of kind) at top mid (machine rows.old history.old work.old (going_on y))
        (machine rows.new history.new work.new (came_out result)) }
{
    let p = y.progress;
    let env = y.env;
    let to = y.end;
    match kind {
        Kind::Join => limited(y, top, at),
        Kind::Insert => {
            let q = insert::insert(rows, history, p, &work[top..mid], &work[mid..to]).map_err(
                |reason| Refusal { reason, place: at },
            )?;
            Ok(Evaluated {
                progress: q,
                place: y.place,
                end: top,
                env,
            })
        }
        // A let, or a for.
        _ => {
            let end = value::copied(work, mid, to, top);
            Ok(Evaluated {
                progress: p,
                place: y.place,
                end,
                env,
            })
        }
    }
}
