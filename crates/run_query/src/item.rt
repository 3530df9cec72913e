// Steps from one item to its children, parent or ancestors, as a loop's body takes them: no flags. Where there is an index, only rows made
// since are passed over, else the rows above the item, and for parent and ancestors none.
ghost use Rattle.std.specs.Prelude.{◌≡◌, true, cond, ◌+◌, ◌-◌, ◌≤◌, ◌<◌, length, set};
ghost use Rattle.model.specs.Script.{step_by};
ghost use Rattle.script_records.specs.Steps.{test_number, test_name};
ghost use Rattle.run_query.specs.Values.{ItemPre, ItemPost, Grown, is_child, CountPre, CountPost};
ghost use Rattle.run_query.specs.Values.{ScanPre, ScanPost};
ghost use Rattle.run_query.specs.Index.{IndexHeld};

use crate::{index, step};
use plan_table::{Link, RowNumber, packed};
use script_records::step::Test;

// Appends a row to the value that ends at a place, if it is a child, by its parent's link, and passes the test; the place past the value.
// Few rows are children, so a branch for those that are not costs least.
fn append_child(
    rows: &[u32],
    row: RowNumber,
    link: Link,
    test: Test,
    work: &mut [u16],
    at: usize,
) -> usize
    requires row_in_bounds { row.0 < length rows.now }
    requires row_bound { row.0 < 65536 }
    requires at_in_bounds { at < length work.old }
    ensures { Grown (is_child rows.now row.0 link.0 (test_number test) (test_name test)) row.0 work.old at
        work.new result }
{
    let w = rows[row.0];
    if packed::link(w) != link {
        return at;
    }
    step::append_if(test.admits(w), row, work, at)
}

// The children of an item from a row on, appended to the value that ends at a place; the place past them.
fn scanned(
    rows: &[u32],
    count: usize,
    item: RowNumber,
    test: Test,
    low: usize,
    work: &mut [u16],
    from: usize,
) -> usize
    requires { ScanPre rows.now count item.0 low work.old from }
    ensures { ScanPost rows.now count (step_by 0 (test_number test) (test_name test)) item.0 low work.old from
        work.new result }
{
    let link = Link::to(Some(item));
    let mut at = from;
    for j in low..count {
        at = append_child(rows, RowNumber(j), link, test, work, at);
    }
    at
}

// The children of an item that pass the test; the place past them. Those in the index follow each other there; the rows made since are
// passed over, and where the item is one of them, those above it. Children are higher than their parent.
pub(crate) fn children(
    rows: &[u32],
    count: usize,
    index: &[u16],
    item: RowNumber,
    test: Test,
    work: &mut [u16],
    from: usize,
) -> usize
    requires item_pre { ItemPre rows.now count item.0 work.old from }
    requires index_held { IndexHeld index.now rows.now count }
    ensures { ItemPost rows.now count (step_by 0 (test_number test) (test_name test)) item.0 work.old from
        work.new result }
{
    let link = Link::to(Some(item));
    let many = usize::from(index[index::COUNT]);
    if many < link.0 {
        return scanned(rows, count, item, test, link.0, work, from);
    }
    let mut at = from;
    let mut j = usize::from(index[link.0]);
    while j < many {
        at = append_child(rows, RowNumber(j), link, test, work, at);
        j = usize::from(index[index::NEXT + j]);
    }
    scanned(rows, count, item, test, many, work, at)
}

// An item's parent, if it passes the test; the place past it.
pub(crate) fn parent(
    rows: &[u32],
    count: usize,
    item: RowNumber,
    test: Test,
    work: &mut [u16],
    from: usize,
) -> usize
    requires { ItemPre rows.now count item.0 work.old from }
    ensures { ItemPost rows.now count (step_by 2 (test_number test) (test_name test)) item.0 work.old from
        work.new result }
{
    let Some(row) = packed::link(rows[item.0]).row() else {
        return from;
    };
    step::append_if(test.admits(rows[row.0]), row, work, from)
}

// How many rows above an item pass the test.
fn count_above(rows: &[u32], count: usize, item: RowNumber, test: Test) -> usize
    requires { CountPre rows.now count item.0 }
    ensures { CountPost rows.now count item.0 (test_number test) (test_name test) result }
{
    let mut n = 0;
    let mut l = packed::link(rows[item.0]).0;
    while 0 < l {
        let w = rows[l - 1];
        if test.admits(w) {
            n += 1;
        }
        l = packed::link(w).0;
    }
    n
}

// Puts an item in front of the value that starts at a place, if it is kept; the place where the value then starts.
fn prepend_if(keep: bool, item: RowNumber, work: &mut [u16], at: usize) -> usize
    requires item_bound { item.0 < 65536 }
    requires at_in_bounds { at ≤ length work.old }
    requires at_nonzero { keep ≡ true → 0 < at }
    ensures work_after { work.new ≡ cond keep (set work.old (at - 1) item.0) work.old }
    ensures value { result ≡ cond keep (at - 1) at }
{
    if !keep {
        return at;
    }
    work[at - 1] = item.0 as u16;
    at - 1
}

// The rows above an item that pass the test; the place past them. The way up falls in number, so it is written from the end.
#[inline(never)]
pub(crate) fn ancestors(
    rows: &[u32],
    count: usize,
    item: RowNumber,
    test: Test,
    work: &mut [u16],
    from: usize,
) -> usize
    requires { ItemPre rows.now count item.0 work.old from }
    ensures { ItemPost rows.now count (step_by 3 (test_number test) (test_name test)) item.0 work.old from
        work.new result }
{
    let end = from + count_above(rows, count, item, test);
    let mut at = end;
    let mut l = packed::link(rows[item.0]).0;
    while 0 < l {
        let row = l - 1;
        let w = rows[row];
        let keep = test.admits(w);
        at = prepend_if(keep, RowNumber(row), work, at);
        l = packed::link(w).0;
    }
    end
}
