// Columns: what the filling needs of the second script's positions, a byte for each field of each, made once.
ghost use Rattle.std.specs.Prelude.{◌≡◌, ◌<◌};
ghost use Rattle.paths_rows.specs.Columns.{operand_of, fields_by, column_at, is_set_at, FieldPre, AtPre, ColumnPre, ColumnPost};
ghost use Rattle.paths_rows.specs.Columns.{ColumnsPre, Columns};

use paths_cells::pairs;
use paths_positions::POSITIONS;
use paths_positions::packed::Fields;

// The fields: the number of the first and the second operand, the kind, the role; then yes or no: a descendant step, one that some
// element passes, one that some leaf passes, one with a name; then the two bytes of the label.
pub const FIRST: usize = 0;

pub const SECOND: usize = 1;

pub const KIND: usize = 2;

pub const ROLE: usize = 3;

pub const DEEP: usize = 4;

pub const ELEMENT: usize = 5;

pub const LEAF: usize = 6;

pub const NAMED: usize = 7;

pub const LOW: usize = 8;

pub const HIGH: usize = 9;

const FIELDS: usize = 10;

// What the field of the kind says: a byte, which the loops compare without a branch; 0 is nothing.
pub const ROOT: u8 = 1;

const OVER: u8 = 2;

pub const UNION: u8 = 3;

// The bytes of all columns.
pub const SIZE: usize = FIELDS * POSITIONS;

// The number of its first operand, 0 where there is none.
fn operand(q: Fields) -> u8
    requires { FieldPre q }
    ensures { result ≡ operand_of q }
{
    if (q.kind as u8 == OVER) | (q.kind as u8 == UNION) {
        return q.first as u8;
    }
    0
}

// The fields of a position, in their order.
fn fields(q: Fields) -> [u8; FIELDS]
    requires fits { FieldPre q }
    requires axis { q.axis < 4 }
    requires test { q.test < 4 }
    ensures { result ≡ fields_by q }
{
    let over = q.kind as u8 == OVER;
    let step = q.step();
    [
        operand(q),
        q.second as u8,
        q.kind as u8,
        q.role as u8,
        pairs::bit(step.is_deep()),
        pairs::bit(over & step.admits_element()),
        pairs::bit(over & step.admits_leaf()),
        pairs::bit(step.is_named()),
        (q.label % 256) as u8,
        (q.label / 256) as u8,
    ]
}

// The fields of one position, number l.
fn column(columns: &mut [u8], l: usize, q: Fields)
    requires fits { ColumnPre columns.old l q }
    requires axis { q.axis < 4 }
    requires test { q.test < 4 }
    ensures { ColumnPost columns.old l q columns.new }
{
    let fields = fields(q);
    for f in 0..FIELDS {
        columns[POSITIONS * f + l] = fields[f];
    }
}

// Those of all.
pub fn spread(positions: &[usize], columns: &mut [u8])
    requires { ColumnsPre positions.now columns.old }
    ensures { Columns positions.now columns.new }
{
    for (l, p) in positions.iter().enumerate() {
        column(columns, l, Fields::unpacked(*p));
    }
}

// A field of position l.
pub fn at(columns: &[u8], f: usize, l: usize) -> u8
    requires { AtPre columns.now f l }
    ensures { result ≡ column_at columns.now f l }
{
    columns[POSITIONS * f + l]
}

// One that says yes or no.
pub fn is_set(columns: &[u8], f: usize, l: usize) -> bool
    requires { AtPre columns.now f l }
    ensures { result ≡ is_set_at columns.now f l }
{
    at(columns, f, l) % 2 == 1
}
