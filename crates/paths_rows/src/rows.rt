// The marks of a row: what position k of the first script has in common with each of the second's. One loop, `mark_row`, marks a relation
// from others by a closure without a branch, so that the compiler can do many pairs at once.
ghost use Rattle.std.specs.Prelude.{◌≡◌, length};
ghost use Rattle.paths_positions.specs.Answer.{any_up_to};
ghost use Rattle.paths_positions.specs.Packed.{role_number};
ghost use Rattle.paths_positions.specs.Steps.{max_positions};
ghost use Rattle.paths_cells.specs.Pairs.{on_element, down, on_leaf, relation_number, PairPre};
ghost use Rattle.paths_rows.specs.Rows.{is_yes, element_by, leaf_by, root_by, down_by, either_by, met_by, RowMarked};
ghost use Rattle.paths_rows.specs.Rows.{ParentsPre, ParentsPost, PassPre, OnPre, DownPre, UnionPre, MetPre};
ghost use Rattle.paths_rows.specs.Rows.{TestPre, MarkRowPre, CallsPre, MarkRowPost};

use crate::columns;
use paths_cells::pairs::{self, Relation};
use paths_positions::packed::Role;
use plan_table::number;

// Whether an element can be the parent of a node on both positions, the first one a step from position i, for each of the second's: one
// in the relation `source` with the operand there, or, where a descendant step leads there, one down from it.
pub fn parents(
    table: &[u8],
    m: usize,
    columns: &[u8],
    i: usize,
    source: Relation,
    parents: &mut [u8],
)
    requires { ParentsPre table.now m columns.now i (relation_number source) parents.old }
    ensures { ParentsPost table.now m columns.now i (relation_number source) parents.old parents.new }
{
    for l in 0..m {
        let j = number::byte(columns::at(columns, columns::FIRST, l));
        let past = columns::is_set(columns, columns::DEEP, l);
        parents[l] = pairs::bit(
            pairs::is_marked(table, m, source, i, j)
                | (past & pairs::is_marked(table, m, Relation::Down, i, j)),
        );
    }
}

// Marks one relation of row k, column by column, where `holds` says so of the table as marked until then and of the column. Whether it
// says so of any.
fn mark_row<F: Fn(&[u8], usize) -> bool>(
    table: &mut [u8],
    m: usize,
    relation: Relation,
    k: usize,
    holds: F,
) -> bool
    requires row { MarkRowPre table.old m (relation_number relation) k }
    requires calls { CallsPre (F.pre holds) table.old m }
    ensures { MarkRowPost (F.post holds) table.old m (relation_number relation) k table.new result }
{
    let mut seen = false;
    for l in 0..m {
        let marked = holds(table, l);
        pairs::mark(table, m, relation, k, l, marked);
        seen = seen | marked;
    }
    seen
}

// A byte that says yes.
fn is_yes(b: u8) -> bool
    ensures { result ≡ is_yes b }
{
    b % 2 == 1
}

// An element on both, from their parents, and from the name that the first one's step has, if it has one.
pub fn on_elements(
    table: &mut [u8],
    m: usize,
    columns: &[u8],
    parents: &[u8],
    k: usize,
    named: bool,
    low: u8,
    high: u8,
)
    requires { OnPre table.old m on_element k columns.now parents.now }
    ensures { RowMarked table.old m on_element k (element_by columns.now parents.now named low high)
        m table.new }
{
    let holds = |_: &[u8], l: usize| -> bool
        requires test { TestPre columns.now l }
        requires space { length parents.now ≡ max_positions }
        ensures { result ≡ element_by columns.entry.now parents.entry.now named low high l }
    {
        let same = (columns::at(columns, columns::LOW, l) == low)
            & (columns::at(columns, columns::HIGH, l) == high);
        let both = named & columns::is_set(columns, columns::NAMED, l);
        is_yes(parents[l]) & columns::is_set(columns, columns::ELEMENT, l) & (!both | same)
    };
    mark_row(table, m, Relation::OnElement, k, holds);
}

// A leaf on both, from their parents, where the first one's step lets leaves pass. Whether there is any.
pub fn on_leaves(table: &mut [u8], m: usize, columns: &[u8], parents: &[u8], k: usize) -> bool
    requires { OnPre table.old m on_leaf k columns.now parents.now }
    ensures row_marked { RowMarked table.old m on_leaf k (leaf_by columns.now parents.now) m
        table.new }
    ensures value { result ≡ any_up_to (leaf_by columns.now parents.now) m }
{
    let holds = |_: &[u8], l: usize| -> bool
        requires test { TestPre columns.now l }
        requires space { length parents.now ≡ max_positions }
        ensures { result ≡ leaf_by columns.entry.now parents.entry.now l }
    { is_yes(parents[l]) & columns::is_set(columns, columns::LEAF, l) };
    mark_row(table, m, Relation::OnLeaf, k, holds)
}

// An element on both, of a document's root and each root of the second's.
pub fn on_roots(table: &mut [u8], m: usize, columns: &[u8], k: usize, low: u8, high: u8)
    requires { PassPre table.old m on_element k columns.now }
    ensures { RowMarked table.old m on_element k (root_by columns.now low high) m table.new }
{
    let holds = |_: &[u8], l: usize| -> bool
        requires { TestPre columns.now l }
        ensures { result ≡ root_by columns.entry.now low high l }
    {
        let same = (columns::at(columns, columns::LOW, l) == low)
            & (columns::at(columns, columns::HIGH, l) == high);
        (columns::at(columns, columns::KIND, l) == columns::ROOT) & same
    };
    mark_row(table, m, Relation::OnElement, k, holds);
}

// An element down: one on both, or, where the step from position i lets elements pass, one below what is down from i. Not yet of unions.
// Whether there is any.
pub fn down(
    table: &mut [u8],
    m: usize,
    columns: &[u8],
    i: usize,
    k: usize,
    element: bool,
    deep: bool,
) -> bool
    requires { DownPre table.old m k columns.now i }
    ensures row_marked { RowMarked table.old m down k (down_by table.old m columns.now i k element deep) m
        table.new }
    ensures value { result ≡ any_up_to (down_by table.old m columns.now i k element deep) m }
{
    let holds = |marks: &[u8], l: usize| -> bool
        requires test { TestPre columns.now l }
        requires source { PairPre marks.now m down i l }
        requires own { PairPre marks.now m down k l }
        ensures { result ≡ down_by marks.now m columns.entry.now i k element deep l }
    {
        let union = columns::at(columns, columns::KIND, l) == columns::UNION;
        let below = pairs::is_marked(marks, m, Relation::Down, i, l)
            | (deep & pairs::is_marked(marks, m, Relation::Up, i, l));
        pairs::is_marked(marks, m, Relation::OnElement, k, l) | (element & !union & below)
    };
    mark_row(table, m, Relation::Down, k, holds)
}

// A relation of a union: that of its parts a and b.
pub fn union(table: &mut [u8], m: usize, relation: Relation, k: usize, a: usize, b: usize)
    requires { UnionPre table.old m (relation_number relation) k a b }
    ensures { RowMarked table.old m (relation_number relation) k (either_by table.old m (relation_number relation) a b) m table.new }
{
    let holds = |marks: &[u8], l: usize| -> bool
        requires first { PairPre marks.now m (relation_number relation) a l }
        requires second { PairPre marks.now m (relation_number relation) b l }
        ensures { result ≡ either_by marks.now m (relation_number relation) a b l }
    { pairs::is_marked(marks, m, relation, a, l) | pairs::is_marked(marks, m, relation, b, l) };
    mark_row(table, m, relation, k, holds);
}

// Position k meets one of this role.
pub fn meets(table: &[u8], m: usize, columns: &[u8], k: usize, role: Role) -> bool
    requires { MetPre table.now m k columns.now }
    ensures { result ≡ any_up_to (met_by table.now m columns.now k (role_number role)) m }
{
    let number = u8::from(role);
    let mut seen = false;
    for l in 0..m {
        let tested = columns::at(columns, columns::ROLE, l) == number;
        let met = pairs::is_marked(table, m, Relation::OnElement, k, l)
            | pairs::is_marked(table, m, Relation::OnLeaf, k, l);
        seen = seen | (tested & met);
    }
    seen
}
