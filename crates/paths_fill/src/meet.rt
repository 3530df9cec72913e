// Whether the positions of two scripts meet: fills the table of pairs row by row, each row from lower ones.
ghost use Rattle.std.specs.Prelude.{◌≡◌, true, ◌<◌, length};
ghost use Rattle.paths_positions.specs.Answer.{any_up_to, positions_meet, row_meets};
ghost use Rattle.paths_positions.specs.Packed.{entries_by, some_leads_up, root_kind, over_kind, union_kind};
ghost use Rattle.paths_positions.specs.Packed.{plain_role, root_by, over_by, union_by};
ghost use Rattle.script_records.specs.Steps.{step_of};
ghost use Rattle.paths_cells.specs.Pairs.{on_element, on_leaf, relation_number};
ghost use Rattle.paths_rows.specs.Rows.{RowMarked, OnPre};
ghost use Rattle.paths_fill.specs.Filling.{step_elements, step_leaves, source_by, UnionsPre, UnionsPost, RestPre, LeftPre, LeftPost};
ghost use Rattle.paths_fill.specs.Filling.{RestPost, KindRowPre, RowPre, RowPost, MeetsPre, TablePre};

use paths_cells::pairs::{self, Relation};
use paths_positions::POSITIONS;
use paths_positions::packed::{Position, Role};
use paths_rows::{columns, rows};
use plan_table::number;
use script_records::step::Step;

// Some position leads up.
pub fn some_leads_up(positions: &[usize]) -> bool
    ensures { result ≡ some_leads_up positions.now }
{
    positions.iter().any(|p| Position::unpacked(*p).leads_up())
}

// A pair with a union, number l of the second script: each relation is that of its parts a and b.
fn unions(table: &mut [u8], m: usize, k: usize, l: usize, a: usize, b: usize)
    requires { UnionsPre table.old m k l a b }
    ensures { UnionsPost table.old m k l a b table.new }
{
    for r in Relation::ALL {
        let holds = pairs::is_marked(table, m, r, k, a) | pairs::is_marked(table, m, r, k, b);
        pairs::mark(table, m, r, k, l, holds);
    }
}

// What is left of the pair k, l: all of it where l is a union, else the element up.
fn pair(first: &[usize], second: &[usize], columns: &[u8], table: &mut [u8], k: usize, l: usize)
    requires { LeftPre first.now second.now columns.now table.old k l }
    ensures { LeftPost first.now second.now table.old k l table.new }
{
    let m = second.len();
    let j = number::byte(columns::at(columns, columns::FIRST, l));
    if columns::at(columns, columns::KIND, l) == columns::UNION {
        unions(
            table,
            m,
            k,
            l,
            j,
            number::byte(columns::at(columns, columns::SECOND, l)),
        );
        return;
    }
    let past = columns::is_set(columns, columns::DEEP, l);
    let above = pairs::is_marked(table, m, Relation::Up, k, j)
        | (past & pairs::is_marked(table, m, Relation::Down, k, j));
    let holds = pairs::is_marked(table, m, Relation::OnElement, k, l)
        | (columns::is_set(columns, columns::ELEMENT, l) & above);
    pairs::mark(table, m, Relation::Up, k, l, holds);
}

// What is left of row k once an element or a leaf on both and an element down are marked.
fn rest(first: &[usize], second: &[usize], columns: &[u8], table: &mut [u8], k: usize)
    requires { RestPre first.now second.now columns.now table.old k }
    ensures { RestPost first.now second.now table.old k table.new }
{
    for l in 0..second.len() {
        pair(first, second, columns, table, k, l);
    }
}

// An element on both, of a step that may let none pass.
fn on_elements(table: &mut [u8], m: usize, columns: &[u8], parents: &[u8], k: usize, step: Step)
    requires { OnPre table.old m on_element k columns.now parents.now }
    ensures { RowMarked table.old m on_element k
        (step_elements (step_of step) columns.now parents.now) m
        table.new }
{
    if step.admits_element() {
        let name = step.test.name().0;
        rows::on_elements(
            table,
            m,
            columns,
            parents,
            k,
            step.is_named(),
            (name % 256) as u8,
            (name / 256) as u8,
        );
    }
}

// A leaf on both, of a step that may let none pass. Whether there is any.
fn on_leaves(
    table: &mut [u8],
    m: usize,
    columns: &[u8],
    parents: &[u8],
    k: usize,
    step: Step,
) -> bool
    requires { OnPre table.old m on_leaf k columns.now parents.now }
    ensures row_marked { RowMarked table.old m on_leaf k
        (step_leaves (step_of step) columns.now parents.now) m
        table.new }
    ensures value { result ≡ any_up_to (step_leaves (step_of step) columns.now parents.now) m }
{
    if step.admits_leaf() {
        return rows::on_leaves(table, m, columns, parents, k);
    }
    false
}

// The relation with an operand that a step needs, beside an element down: an element up from a descendant step, else one on both.
fn source(deep: bool) -> Relation
    ensures { relation_number result ≡ source_by deep }
{
    if deep {
        return Relation::Up;
    }
    Relation::OnElement
}

// Row k, of a step from position i: whether it has anything in common with any.
fn step_row(
    first: &[usize],
    second: &[usize],
    columns: &[u8],
    table: &mut [u8],
    k: usize,
    step: Step,
    i: usize,
) -> bool
    requires { KindRowPre first.now second.now columns.now table.old k
        (over_by plain_role (step_of step) i) over_kind }
    ensures { RowPost first.now second.now table.old k table.new result }
{
    let m = second.len();
    let mut above = [0u8; POSITIONS];
    rows::parents(table, m, columns, i, source(step.is_deep()), &mut above);
    on_elements(table, m, columns, &above, k, step);
    let leaves = on_leaves(table, m, columns, &above, k, step);
    let elements = rows::down(
        table,
        m,
        columns,
        i,
        k,
        step.admits_element(),
        step.is_deep(),
    );
    rest(first, second, columns, table, k);
    leaves | elements
}

// Row k, of a document's root.
fn root_row(
    first: &[usize],
    second: &[usize],
    columns: &[u8],
    table: &mut [u8],
    k: usize,
    document: u16,
) -> bool
    requires { KindRowPre first.now second.now columns.now table.old k (root_by document) root_kind }
    ensures { RowPost first.now second.now table.old k table.new result }
{
    let m = second.len();
    rows::on_roots(
        table,
        m,
        columns,
        k,
        (document % 256) as u8,
        (document / 256) as u8,
    );
    // no step leads to a root, so an element is down where it is on both
    let seen = rows::down(table, m, columns, k, k, false, false);
    if seen {
        rest(first, second, columns, table, k);
        return true;
    }
    false
}

// Row k, of positions i and j together: each relation is that of its parts.
fn union_row(
    first: &[usize],
    second: &[usize],
    columns: &[u8],
    table: &mut [u8],
    k: usize,
    i: usize,
    j: usize,
)
    requires { KindRowPre first.now second.now columns.now table.old k
        (union_by plain_role i j) union_kind }
    ensures { RowPost first.now second.now table.old k table.new true }
{
    let m = second.len();
    for r in Relation::ALL {
        rows::union(table, m, r, k, i, j);
    }
}

// Row k: whether it has anything in common with any. `live` says so of lower rows: a step from a row without has nothing either.
fn row(
    first: &[usize],
    second: &[usize],
    columns: &[u8],
    live: &[u8],
    table: &mut [u8],
    k: usize,
) -> bool
    requires { RowPre first.now second.now columns.now live.now table.old k }
    ensures { RowPost first.now second.now table.old k table.new result }
{
    match Position::unpacked(first[k]) {
        Position::Nothing => false,
        Position::Root { document, .. } => root_row(first, second, columns, table, k, document),
        Position::Over {
            role: _,
            step,
            operand: i,
        } => {
            if live[i] == 0 {
                return false;
            }
            step_row(first, second, columns, table, k, step, i)
        }
        Position::Union {
            role: _,
            first: i,
            second: j,
        } => {
            if (live[i] == 0) & (live[j] == 0) {
                return false;
            }
            union_row(first, second, columns, table, k, i, j);
            true
        }
    }
}

// Position k meets one of the second script: one of the two is modified, the other accessed. A row with nothing in common, not `seen`,
// meets none.
fn row_meets(
    first: &[usize],
    second: &[usize],
    columns: &[u8],
    table: &[u8],
    k: usize,
    seen: bool,
) -> bool
    requires { MeetsPre first.now second.now columns.now table.now k seen }
    ensures { result ≡ row_meets (entries_by first.now) (entries_by second.now) k (length second.now) }
{
    if !seen {
        return false;
    }
    match Position::unpacked(first[k]).role() {
        Role::Plain => false,
        Role::Accessed => rows::meets(table, second.len(), columns, k, Role::Modified),
        Role::Modified => rows::meets(table, second.len(), columns, k, Role::Accessed),
    }
}

// Some position that one script modifies meets one that the other accesses.
pub fn positions_meet(first: &[usize], second: &[usize], table: &mut [u8]) -> bool
    requires { TablePre first.now second.now table.old }
    ensures { result ≡ positions_meet (entries_by first.now) (entries_by second.now) }
{
    let mut columns = [0u8; columns::SIZE];
    columns::spread(second, &mut columns);
    let mut live = [0u8; POSITIONS];
    for k in 0..first.len() {
        let seen = row(first, second, &columns, &live, table, k);
        live[k] = pairs::bit(seen);
        if row_meets(first, second, &columns, table, k, seen) {
            return true;
        }
    }
    false
}
