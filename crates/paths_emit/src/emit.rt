// Emission: one pass over an accepted script in place numbers the positions of its expressions, operands first. A function that
// answers a position answers its number, 0 for nothing.
ghost use Rattle.std.specs.Prelude.{◌≡◌, ◌<◌, true, length, get_or};
ghost use Rattle.model.specs.Script.{is_script_kind};
ghost use Rattle.model.specs.Paths.{any_below};
ghost use Rattle.script_records.specs.Kinds.{byte_of};
ghost use Rattle.script_records.specs.Steps.{step_of};
ghost use Rattle.paths_positions.specs.Positions.{push_step, push_union, push_delete, push_insert};
ghost use Rattle.paths_positions.specs.Packed.{role_number};
ghost use Rattle.paths_emit.specs.Emitting.{out_of, unary_of, binary_of, GrowPre, PairedPre, UnaryPre, Grown, BindPre};
ghost use Rattle.paths_emit.specs.Emitting.{BindPost, BelowPre, BelowPost, NullaryPre, NullaryPost, emitter, EmitPre, EmitPost};

use paths_positions::packed::{Position, Positions, Role};
use plan_table::Table;
use script_records::kinds::Kind;
use script_records::step::{Axis, Step, Test};

// The step to every node below.
fn any_below() -> Step
    ensures { step_of result ≡ any_below }
{
    Step {
        axis: Axis::Descendant,
        test: Test::Node,
    }
}

// A step over x, accessed. From nothing it is nothing, with a position only where it leads up.
fn step(positions: &mut Positions, step: Step, x: usize) -> usize
    requires { GrowPre positions.old.items positions.old.count x }
    ensures { Grown (push_step (step_of step) (out_of positions.old.items positions.old.count x))
        positions.old.count positions.new.items positions.new.count result }
{
    if (x == 0) & !step.is_up() {
        return x;
    }
    positions.push(Position::Over {
        role: Role::Accessed,
        step,
        operand: x,
    })
}

// Two results together; with nothing it is the other.
fn union(positions: &mut Positions, x: usize, y: usize) -> usize
    requires { PairedPre positions.old.items positions.old.count x y }
    ensures { Grown (push_union x (out_of positions.old.items positions.old.count y))
        positions.old.count positions.new.items positions.new.count result }
{
    if x == 0 {
        return y;
    }
    if y == 0 {
        return x;
    }
    positions.push(Position::Union {
        role: Role::Plain,
        first: x,
        second: y,
    })
}

// All below x, and x with that, modified; the result is nothing.
fn delete(positions: &mut Positions, x: usize) -> usize
    requires { GrowPre positions.old.items positions.old.count x }
    ensures { Grown (push_delete (out_of positions.old.items positions.old.count x))
        positions.old.count positions.new.items positions.new.count result }
{
    if x == 0 {
        return x;
    }
    let below = positions.push(Position::Over {
        role: Role::Plain,
        step: any_below(),
        operand: x,
    });
    positions.push(Position::Union {
        role: Role::Modified,
        first: x,
        second: below,
    });
    0
}

// All below a position, in a role, unless it is nothing.
fn below(positions: &mut Positions, role: Role, x: usize)
    requires { BelowPre positions.old.items positions.old.count x }
    ensures { BelowPost positions.old.items positions.old.count (role_number role) x
        positions.new.items positions.new.count }
{
    if x != 0 {
        positions.push(Position::Over {
            role,
            step: any_below(),
            operand: x,
        });
    }
}

// All below x, accessed, and all below y, modified; the result is nothing.
fn insert(positions: &mut Positions, x: usize, y: usize) -> usize
    requires { PairedPre positions.old.items positions.old.count x y }
    ensures { Grown (push_insert x (out_of positions.old.items positions.old.count y))
        positions.old.count positions.new.items positions.new.count result }
{
    below(positions, Role::Accessed, x);
    below(positions, Role::Modified, y);
    0
}

// The kind of the record at a place of an accepted script.
fn kind_at(bytes: &[u8], at: usize) -> Kind
    requires in_bounds { at < length bytes.now }
    requires known { is_script_kind (get_or bytes.now at 0) ≡ true }
    ensures { byte_of result ≡ get_or bytes.now at 0 }
{
    Kind::try_from(bytes[at]).unwrap()
}

// A record without operands: a document, a variable, or nothing.
#[tactic(auto, unfolding(model::specs::Script::script_kinds))]
fn nullary(
    kind: Kind,
    bytes: &[u8],
    at: usize,
    env: [u8; Table::BINDERS],
    positions: &mut Positions,
) -> usize
    requires is { byte_of kind ≡ get_or bytes.now at 0 }
    requires nullary_pre { NullaryPre bytes.now at env positions.old.items positions.old.count }
    ensures { NullaryPost bytes.now at env positions.old.items positions.old.count
        positions.new.items positions.new.count result }
{
    match kind {
        Kind::Document => {
            let (role, document) = (Role::Accessed, u16::from(bytes[at + 1]));
            positions.push(Position::Root { role, document })
        }
        Kind::Variable => usize::from(env[usize::from(bytes[at + 1])]),
        Kind::Nil | Kind::NewElement | Kind::NewLeaf => 0,
        Kind::Step | Kind::Join | Kind::Let | Kind::For | Kind::If => 0,
        Kind::Delete | Kind::Insert | Kind::Pick => 0,
    }
}

// A record with one operand: a step, a delete, or a pick.
#[tactic(auto, unfolding(model::specs::Script::script_kinds))]
fn unary(kind: Kind, bytes: &[u8], at: usize, positions: &mut Positions, x: usize) -> usize
    requires is { byte_of kind ≡ get_or bytes.now at 0 }
    requires unary_pre { UnaryPre bytes.now at positions.old.items positions.old.count x }
    ensures { Grown (unary_of bytes.now at (out_of positions.old.items positions.old.count x))
        positions.old.count positions.new.items positions.new.count result }
{
    match kind {
        Kind::Step => step(positions, Step::read(&bytes[at + 1..]).unwrap(), x),
        Kind::Delete => delete(positions, x),
        Kind::Nil | Kind::Document | Kind::Variable | Kind::Join | Kind::Let => x,
        Kind::For | Kind::If | Kind::NewElement | Kind::NewLeaf | Kind::Insert | Kind::Pick => x,
    }
}

// A record with two operands: a join, an insert, or a binder.
fn binary(kind: Kind, positions: &mut Positions, x: usize, y: usize) -> usize
    requires { PairedPre positions.old.items positions.old.count x y }
    ensures { Grown (binary_of (byte_of kind) x (out_of positions.old.items positions.old.count y))
        positions.old.count positions.new.items positions.new.count result }
{
    match kind {
        Kind::Join => union(positions, x, y),
        Kind::Insert => insert(positions, x, y),
        Kind::Nil | Kind::Document | Kind::Variable | Kind::Step | Kind::Let | Kind::For => y,
        Kind::If | Kind::NewElement | Kind::NewLeaf | Kind::Delete | Kind::Pick => y,
    }
}

// The positions of the variables in the second operand: a binder's first result is one more.
fn bind(kind: Kind, env: [u8; Table::BINDERS], bound: usize, res: usize) -> [u8; Table::BINDERS]
    requires { BindPre (byte_of kind) env bound res }
    ensures { BindPost (byte_of kind) env bound res result }
{
    let mut inside = env;
    if kind.is_binder() {
        inside[bound] = res as u8;
        return inside;
    }
    inside
}

// The expression at `place`, which is moved past it. One operand is asked for first, since that was measured to be fastest.
pub fn emit(
    bytes: &[u8],
    place: &mut usize,
    left: usize,
    bound: usize,
    env: [u8; Table::BINDERS],
    positions: &mut Positions,
) -> usize
    requires { EmitPre bytes.now left bound env
        (emitter place.old positions.old.items positions.old.count) }
    ensures { EmitPost bytes.now left bound env
        (emitter place.old positions.old.items positions.old.count)
        (emitter place.new positions.new.items positions.new.count) result }
{
    let at = *place;
    let kind = kind_at(bytes, at);
    let operands = kind.arity();
    *place = at + (1 + kind.body_size());
    if operands == 1 {
        let x = emit(bytes, place, left - 1, bound, env, positions);
        return unary(kind, bytes, at, positions, x);
    }
    if operands == 0 {
        return nullary(kind, bytes, at, env, positions);
    }
    let x = emit(bytes, place, left - 1, bound, env, positions);
    let inside = bind(kind, env, bound, x);
    let y = emit(bytes, place, left - 1, kind.inner(bound), inside, positions);
    if operands == 2 {
        return binary(kind, positions, x, y);
    }
    let z = emit(bytes, place, left - 1, bound, env, positions);
    union(positions, y, z)
}
