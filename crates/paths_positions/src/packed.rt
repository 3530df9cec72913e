// Positions of a script, each packed into a number: kind, role, axis, test, label, first operand, second operand, the kind lowest.
ghost use Rattle.std.specs.Prelude.{◌≡◌, ◌<◌, length, get_or};
ghost use Rattle.paths_positions.specs.Steps.{max_positions};
ghost use Rattle.paths_positions.specs.Positions.{leads_up};
ghost use Rattle.paths_positions.specs.Packed.{role_number, known_role, fields_in, position_by, pack_position, fields_of, known_name};
ghost use Rattle.paths_positions.specs.Packed.{cleaned, step_number, OperandsFit, PositionFits, PushPre, PushPost};
ghost use Rattle.model.specs.Script.{step_by};
ghost use Rattle.script_records.specs.Steps.{axis_number, test_number, test_name, step_of};

use crate::POSITIONS;
use plan_table::NameNumber;
use script_records::step::{Axis, Step, Test};

// How many numbers each field has room for; an operand has POSITIONS.
const KINDS: usize = 4;

const ROLES: usize = 16;

const AXES: usize = 4;

const TESTS: usize = 4;

const LABELS: usize = 65536;

// An axis and a test; with a label as well.
const SHAPES: usize = AXES * TESTS;

const STEPS: usize = SHAPES * LABELS;

// What a script does with the rows of a position: nothing itself, reads them, or changes them.
#[derive(Clone, Copy, Debug, PartialEq, Eq)]
pub enum Role {
    Plain = 0,
    Accessed = 1,
    Modified = 2,
}

impl From<Role> for u8 {
    ghost from_gives = { λ role number. number ≡ role_number role };

    // Its number.
    fn from(role: Role) -> u8 {
        role as u8
    }
}

// A position: nothing, a document's root, a step over another position, or two positions together.
#[derive(Clone, Copy, Debug, PartialEq, Eq)]
pub enum Position {
    Nothing,
    Root {
        role: Role,
        document: u16,
    },
    Over {
        role: Role,
        step: Step,
        operand: usize,
    },
    Union {
        role: Role,
        first: usize,
        second: usize,
    },
}

// The fields of a packed position, as they stand there: those that its kind does not have are 0 where `push` packed it. The label is the
// name of its step, or its document.
#[derive(Clone, Copy)]
pub struct Fields {
    pub kind: usize,
    pub role: usize,
    pub axis: usize,
    pub test: usize,
    pub label: u16,
    pub first: usize,
    pub second: usize,
}

impl Fields {
    // Each field out of its bits.
    pub fn unpacked(packed: usize) -> Fields
        ensures { result ≡ fields_of packed }
    {
        let roles = packed / KINDS;
        let axes = roles / ROLES;
        let tests = axes / AXES;
        let labels = tests / TESTS;
        let operands = labels / LABELS;
        Fields {
            kind: packed % KINDS,
            role: roles % ROLES,
            axis: axes % AXES,
            test: tests % TESTS,
            label: (labels % LABELS) as u16,
            first: operands % POSITIONS,
            second: operands / POSITIONS % POSITIONS,
        }
    }

    // Their step: its name is the label where its test is for one.
    pub fn step(self) -> Step
        requires axis { self.axis < 4 }
        requires test { self.test < 4 }
        ensures { step_of result ≡ step_by self.axis self.test (known_name self.test self.label) }
    {
        Step {
            axis: axis_of(self.axis),
            test: test_of(self.test, self.label),
        }
    }
}

// The role of a number.
fn role_of(number: usize) -> Role
    ensures { role_number result ≡ known_role number }
{
    match number {
        1 => Role::Accessed,
        2 => Role::Modified,
        _ => Role::Plain,
    }
}

// The axis of a number.
fn axis_of(number: usize) -> Axis
    requires { number < 4 }
    ensures { axis_number result ≡ number }
{
    match number {
        0 => Axis::Child,
        1 => Axis::Descendant,
        2 => Axis::Parent,
        _ => Axis::Ancestor,
    }
}

// The test of a number, with a label that is its name where it is for one.
fn test_of(number: usize, label: u16) -> Test
    requires { number < 4 }
    ensures number { test_number result ≡ number }
    ensures name { test_name result ≡ known_name number label }
{
    match number {
        0 => Test::Node,
        1 => Test::Element,
        2 => Test::Leaf,
        _ => Test::Named(NameNumber(label)),
    }
}

// A step's fields in their bits.
fn packed_step(step: Step) -> usize
    ensures value { result ≡ step_number step }
    ensures upper_bound { result < 1048576 }
{
    let test = match step.test {
        Test::Node => 0,
        Test::Element => 1,
        Test::Leaf => 2,
        Test::Named(_) => 3,
    };
    step.axis as usize + AXES * (test + TESTS * usize::from(step.test.name().0))
}

impl Position {
    // What the script does with its rows.
    pub fn role(self) -> Role
        ensures { role_number result ≡ (fields_in self).role }
    {
        match self {
            Position::Nothing => Role::Plain,
            Position::Root { role, .. }
            | Position::Over { role, .. }
            | Position::Union { role, .. } => role,
        }
    }

    // A position by a step that leads up.
    pub fn leads_up(self) -> bool
        ensures { result ≡ leads_up (position_by (fields_in self)) }
    {
        match self {
            Position::Over { step, .. } => step.is_up(),
            Position::Nothing | Position::Root { .. } | Position::Union { .. } => false,
        }
    }

    // Each field in its bits.
    fn packed(self) -> usize
        requires { OperandsFit self }
        ensures value { result ≡ pack_position (fields_in self) }
        ensures fits { PositionFits (fields_in self) }
    {
        let (kind, role, step, operands) = match self {
            Position::Nothing => (0, Role::Plain, 0, 0),
            Position::Root { role, document } => (1, role, SHAPES * usize::from(document), 0),
            Position::Over {
                role,
                step,
                operand,
            } => (2, role, packed_step(step), operand),
            Position::Union {
                role,
                first,
                second,
            } => (3, role, 0, first + POSITIONS * second),
        };
        kind + KINDS * (role as usize + ROLES * (step + STEPS * operands))
    }

    // The position that a packed one is.
    pub fn unpacked(packed: usize) -> Position
        ensures { fields_in result ≡ cleaned (fields_of packed) }
    {
        let fields = Fields::unpacked(packed);
        let role = role_of(fields.role);
        match fields.kind {
            0 => Position::Nothing,
            1 => Position::Root {
                role,
                document: fields.label,
            },
            2 => Position::Over {
                role,
                step: fields.step(),
                operand: fields.first,
            },
            _ => Position::Union {
                role,
                first: fields.first,
                second: fields.second,
            },
        }
    }
}

// The positions of a script so far, each packed, by their numbers.
#[derive(Drop)]
pub struct Positions {
    pub items: [usize; POSITIONS],
    pub count: usize,
}

impl Positions {
    // Position 0 alone: nothing.
    pub fn new() -> Positions
        ensures size { length result.items ≡ max_positions }
        ensures zero { get_or result.items 0 0 ≡ 0 }
        ensures count { result.count ≡ 1 }
    {
        Positions {
            items: [0; POSITIONS],
            count: 1,
        }
    }

    // One position more; its number.
    pub fn push(&mut self, p: Position) -> usize
        requires { PushPre self.old.items self.old.count p }
        ensures { PushPost self.old.items self.old.count (fields_in p) self.new.items self.new.count result }
    {
        let number = self.count;
        self.items[number] = p.packed();
        self.count = number + 1;
        number
    }
}
