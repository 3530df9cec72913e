// Values in the work area: a value stands from a place up to another, a bound variable's is a start and a length.
ghost use Rattle.std.specs.Prelude.{[], ◌∷◌, ◌<◌, length, get_or};
ghost use Rattle.model.specs.Run.{marked};
ghost use Rattle.plan_table.specs.Packed.{of_link};
ghost use Rattle.script_records.specs.Kinds.{byte_of};
ghost use Rattle.run_query.specs.Values.{Appended, value_at};
ghost use Rattle.run_operators.specs.Evaluating.{CopyPre, BindPre, BindPost, PutPre};

use plan_table::{RowNumber, Table};
use script_records::kinds::Kind;

// A bound variable's value in the work area. Places there fit two bytes, so the eight spans that go from call to call are 32 bytes.
#[derive(Clone, Copy)]
pub struct Span {
    pub start: u16,
    pub len: u16,
}

// Copies the value between two places to another; the place past it. Item by item: copy_within calls memmove, which a C program would have
// to bring, and which takes longer for the one item that most values are.
pub fn copied(work: &mut [u16], from: usize, to: usize, top: usize) -> usize
    requires { CopyPre work.old from to top }
    ensures { Appended (value_at work.old from to) work.old top work.new result }
{
    let mut at = top;
    for k in from..to {
        work[at] = work[k];
        at += 1;
    }
    at
}

// A document's marked row, as a value from top on.
pub fn document(marks: &[u16], d: usize, work: &mut [u16], top: usize) -> usize
    requires d_in_bounds { d < length marks.now }
    requires top_in_bounds { top < length work.old }
    ensures { Appended (marked (of_link (get_or marks.now d 0))) work.old top work.new result }
{
    let m = marks[d];
    if m == 0 {
        return top;
    }
    work[top] = m - 1;
    top + 1
}

// A new row's number, as a value from top on.
pub fn put_row(row: RowNumber, work: &mut [u16], top: usize) -> usize
    requires { PutPre work.old top row.0 }
    ensures { Appended (row.0 ∷ []) work.old top work.new result }
{
    work[top] = row.0 as u16;
    top + 1
}

// The variables of the second operand: a binder's first value is one more.
pub fn bind(
    kind: Kind,
    env: [Span; Table::BINDERS],
    bound: usize,
    start: usize,
    end: usize,
) -> [Span; Table::BINDERS]
    requires { BindPre (byte_of kind) env bound start end }
    ensures { BindPost (byte_of kind) env bound start end result }
{
    let mut inside = env;
    if kind.is_binder() {
        inside[bound] = Span {
            start: start as u16,
            len: (end - start) as u16,
        };
    }
    inside
}
