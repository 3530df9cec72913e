// Marks on pairs of positions: a byte for each relation and pair, 1 where it is marked, else 0. Nothing else knows where it stands: the
// rows of the first script's positions, in each a row for each relation, in each a byte for each of the second script's positions.
ghost use Rattle.std.specs.Prelude.{◌≡◌, ◌<◌};
ghost use Rattle.model.specs.Base.{bit};
ghost use Rattle.paths_cells.specs.Pairs.{relation_number, place_of, is_marked, marked_where, cleared, PairPre, MarkPre};

// The relations: an element on both, an element on the first at or below one on the second, an element on the second at or below one on
// the first, a leaf on both.
#[derive(Clone, Copy, Debug, PartialEq, Eq)]
pub enum Relation {
    OnElement = 0,
    Down = 1,
    Up = 2,
    OnLeaf = 3,
}

impl Relation {
    // Each of them, in the order of its numbers.
    pub const ALL: [Relation; 4] = [
        Relation::OnElement,
        Relation::Down,
        Relation::Up,
        Relation::OnLeaf,
    ];
}

pub const RELATIONS: usize = 4;

// 1 for true.
pub fn bit(b: bool) -> u8
    ensures value { result ≡ bit b }
    ensures upper_bound { result < 2 }
{
    if b {
        return 1;
    }
    0
}

// Where a mark stands.
fn place(table: &[u8], columns: usize, relation: Relation, k: usize, l: usize) -> usize
    requires { PairPre table.now columns (relation_number relation) k l }
    ensures { result ≡ place_of columns (relation_number relation) k l }
{
    columns * (RELATIONS * k + relation as usize) + l
}

// Unmarks all pairs.
pub fn clear(table: &mut [u8])
    ensures { table.new ≡ cleared table.old }
{
    table.fill(0);
}

// Marks a pair, where it holds. Where it does not, the pair is one not marked yet: so the byte is written either way, without a branch.
pub fn mark(table: &mut [u8], columns: usize, relation: Relation, k: usize, l: usize, holds: bool)
    requires { MarkPre table.old columns (relation_number relation) k l holds }
    ensures { table.new ≡ marked_where holds table.old columns (relation_number relation) k l }
{
    let at = place(table, columns, relation, k, l);
    table[at] = bit(holds);
}

// Whether a pair is marked.
pub fn is_marked(table: &[u8], columns: usize, relation: Relation, k: usize, l: usize) -> bool
    requires { PairPre table.now columns (relation_number relation) k l }
    ensures { result ≡ is_marked table.now columns (relation_number relation) k l }
{
    let at = place(table, columns, relation, k, l);
    table[at] % 2 == 1
}
