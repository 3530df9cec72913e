// The rows that a step reaches from a value.
// A row's flag stands at its number plus one; position 0 is for no row.
ghost use Rattle.std.specs.Prelude.{◌≡◌, cond, ◌+◌, ◌<◌, length, get_or, set};
ghost use Rattle.model.specs.Base.{bit};
ghost use Rattle.model.specs.Script.{step_by};
ghost use Rattle.script_records.specs.Steps.{axis_number, test_number, test_name, step_of};
ghost use Rattle.run_query.specs.Stepping.{FlagPre, Flagged, ClearBelow, counted, marked_by, OnePre, climbed, PassPre, Reached};
ghost use Rattle.run_query.specs.Values.{kept, kept_rows, CollectPre, Appended, DescendPre, DescendPost, StepPre, StepPost};
ghost use Rattle.run_query.specs.Index.{IndexHeld};

use crate::item;
use plan_table::{RowNumber, Table, packed};
use script_records::step::{Axis, Step, Test};

// Flags each item of a value; no row below the answer, at most the count, has a flag.
fn flag(flags: &mut [u8], items: &[u16], count: usize) -> usize
    requires { FlagPre flags.old items.now count }
    ensures flagged { Flagged items.now flags.new }
    ensures clear_below { ClearBelow count result flags.new }
{
    let mut low = count;
    for item in items {
        let at = usize::from(*item);
        flags[at + 1] = 1;
        if at < low {
            low = at;
        }
    }
    low
}

// Whether a row counts for the next: an item, or along a deep axis a row that is reached.
fn counts(flag: u8, reached: u8, deep: bool) -> bool
    ensures { result ≡ counted flag reached deep }
{
    flag != 0 || deep && reached != 0
}

// A row on the way up: where it counts, its parent is reached.
fn climb_one(w: u32, row: RowNumber, deep: bool, flags: &[u8], reached: &mut [u8])
    requires { OnePre w row.0 flags.now reached.old }
    ensures { reached.new ≡ climbed w row.0 deep flags.now reached.old }
{
    let at = row.0 + 1;
    if counts(flags[at], reached[at], deep) {
        reached[packed::link(w).0] = 1;
    }
}

// The rows above the items: parents, or ancestors along a deep axis.
fn climb(rows: &[u32], count: usize, deep: bool, flags: &[u8], reached: &mut [u8])
    requires { PassPre rows.now count flags.now reached.old }
    ensures { Reached rows.now count (2 + bit deep) flags.now reached.new }
{
    for j in (0..count).rev() {
        climb_one(rows[j], RowNumber(j), deep, flags, reached);
    }
}

// A row is kept: it is reached and passes the test.
fn keeps(rows: &[u32], row: RowNumber, flag: u8, test: Test) -> bool
    requires { row.0 < length rows.now }
    ensures { result ≡ kept rows.now row.0 flag (test_number test) (test_name test) }
{
    flag != 0 && test.admits(rows[row.0])
}

// Appends an item to the value that ends at a place, if it is kept; the place past the value. It is stored in any case, so that no branch
// is taken for it.
pub fn append_if(keep: bool, item: RowNumber, work: &mut [u16], at: usize) -> usize
    requires item_bound { item.0 < 65536 }
    requires at_in_bounds { at < length work.old }
    ensures work_after { work.new ≡ set work.old at item.0 }
    ensures value { result ≡ cond keep (at + 1) at }
{
    work[at] = item.0 as u16;
    if keep { at + 1 } else { at }
}

// The rows that are reached and pass the test, in rising number, from a place on; the place past them.
fn collect(
    rows: &[u32],
    count: usize,
    reached: &[u8],
    test: Test,
    work: &mut [u16],
    from: usize,
) -> usize
    requires { CollectPre rows.now count reached.now work.old from }
    ensures { Appended (kept_rows rows.now reached.now (test_number test) (test_name test) count) work.old from
        work.new result }
{
    let mut at = from;
    for j in 0..count {
        let keep = keeps(rows, RowNumber(j), reached[j + 1], test);
        at = append_if(keep, RowNumber(j), work, at);
    }
    at
}

// Flags a row on the way down, where it counts for its children by its parent's flag `above`.
fn mark(flags: &mut [u8], row: RowNumber, above: u8, deep: bool)
    requires { row.0 + 1 < length flags.old }
    ensures { flags.new ≡ marked_by flags.old row.0 above deep }
{
    if counts(0, above, deep) {
        flags[row.0 + 1] = 1;
    }
}

// The rows below the flagged items that pass the test: children, or descendants along a deep axis; the place past them. One pass, since
// parents are lower than their children: a row that counts for its children is flagged before they are looked at.
fn descend(
    rows: &[u32],
    count: usize,
    deep: bool,
    flags: &mut [u8],
    low: usize,
    test: Test,
    work: &mut [u16],
    from: usize,
) -> usize
    requires { DescendPre rows.now count flags.old low work.old from }
    ensures { DescendPost rows.now count (step_by (bit deep) (test_number test) (test_name test)) flags.old work.old from
        work.new result }
{
    let mut at = from;
    for j in low..count {
        let l = packed::link(rows[j]).0;
        let above = flags[l];
        mark(flags, RowNumber(j), above, deep);
        let keep = keeps(rows, RowNumber(j), above, test);
        at = append_if(keep, RowNumber(j), work, at);
    }
    at
}

// A step down from the value at a place.
fn rows_below(
    rows: &[u32],
    count: usize,
    deep: bool,
    test: Test,
    work: &mut [u16],
    from: usize,
    to: usize,
) -> usize
    requires { StepPre rows.now count (bit deep) work.old from to }
    ensures { StepPost rows.now count (step_by (bit deep) (test_number test) (test_name test)) work.old from to
        work.new result }
{
    let mut flags = [0u8; Table::LINKS];
    let low = flag(&mut flags, &work[from..to], count);
    descend(rows, count, deep, &mut flags, low, test, work, from)
}

// A step up from the value at a place. It and item::ancestors stay calls: with their loops in `stepped` a step down took half as long
// again, since LLVM no longer made a loop for each test.
#[inline(never)]
fn rows_above(
    rows: &[u32],
    count: usize,
    deep: bool,
    test: Test,
    work: &mut [u16],
    from: usize,
    to: usize,
) -> usize
    requires { StepPre rows.now count (2 + bit deep) work.old from to }
    ensures { StepPost rows.now count (step_by (2 + bit deep) (test_number test) (test_name test)) work.old from to
        work.new result }
{
    let mut flags = [0u8; Table::LINKS];
    let mut reached = [0u8; Table::LINKS];
    flag(&mut flags, &work[from..to], count);
    climb(rows, count, deep, &flags, &mut reached);
    collect(rows, count, &reached, test, work, from)
}

// A step from the value at a place, which its rows then take; the place past them. From one item there is a way without flags for each
// axis but the descendants'.
pub fn stepped(
    rows: &[u32],
    count: usize,
    index: &[u16],
    step: Step,
    work: &mut [u16],
    from: usize,
    to: usize,
) -> usize
    requires step_pre { StepPre rows.now count (axis_number step.axis) work.old from to }
    requires index_held { IndexHeld index.now rows.now count }
    ensures { StepPost rows.now count (step_of step) work.old from to work.new result }
{
    let test = step.test;
    match (step.axis, &work[from..to]) {
        (Axis::Child, &[item]) => {
            let row = RowNumber(usize::from(item));
            item::children(rows, count, index, row, test, work, from)
        }
        (Axis::Child, _) => rows_below(rows, count, false, test, work, from, to),
        (Axis::Descendant, _) => rows_below(rows, count, true, test, work, from, to),
        (Axis::Parent, &[item]) => {
            let row = RowNumber(usize::from(item));
            item::parent(rows, count, row, test, work, from)
        }
        (Axis::Parent, _) => rows_above(rows, count, false, test, work, from, to),
        (Axis::Ancestor, &[item]) => {
            let row = RowNumber(usize::from(item));
            item::ancestors(rows, count, row, test, work, from)
        }
        (Axis::Ancestor, _) => rows_above(rows, count, true, test, work, from, to),
    }
}
