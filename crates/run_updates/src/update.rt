// The updates of single rows: a new row, and delete.
ghost use Rattle.std.specs.Prelude.{[], ◌∷◌, ◌+◌, ◌<◌, true, false};
ghost use Rattle.run_updates.specs.State.{going, came, Held};
ghost use Rattle.run_updates.specs.Updating.{NewPre, NewPost, ElementPre, LoosePost, CutPre, DeletePre, DeletePost};

use crate::history;
use crate::state::Progress;
use plan_table::{Link, NameNumber, Reason, RowNumber, Table, packed};

// Row w more, with its record: 10 when the table is full.
pub fn new_row(
    rows: &mut [u32],
    history: &mut [u8],
    p: Progress,
    w: u32,
) -> Result<Progress, Reason>
    requires { NewPre rows.old history.old (going p) w }
    ensures { NewPost rows.old history.old (going p) w rows.new history.new (came result) }
{
    let count = p.count;
    let at = p.bytes;
    let mut tally = p.tally;
    if Table::ROWS <= count {
        return Err(Reason::Table);
    }
    rows[count] = w;
    history::put_made(history, at, RowNumber(count), w);
    tally.raise_made();
    Ok(Progress {
        count: count + 1,
        bytes: at + history::MADE_SIZE,
        tally,
    })
}

// A new element without parent.
pub fn new_element(
    rows: &mut [u32],
    history: &mut [u8],
    p: Progress,
    name: NameNumber,
) -> Result<Progress, Reason>
    requires { ElementPre rows.old history.old (going p) name.0 }
    ensures { LoosePost rows.old history.old (going p) false name.0 rows.new history.new (came result) }
{
    new_row(rows, history, p, packed::element(name, Link(0)))
}

// A new leaf without parent.
pub fn new_leaf(
    rows: &mut [u32],
    history: &mut [u8],
    p: Progress,
    value: u8,
) -> Result<Progress, Reason>
    requires { Held rows.old history.old (going p) }
    ensures { LoosePost rows.old history.old (going p) true value rows.new history.new (came result) }
{
    new_row(rows, history, p, packed::leaf(value, Link(0)))
}

// A row cut from its parent, if it has one, with a record.
fn cut_row(rows: &mut [u32], history: &mut [u8], p: Progress, row: RowNumber) -> Progress
    requires { CutPre rows.old history.old (going p) row.0 }
    ensures { DeletePost rows.old history.old (going p) (row.0 ∷ []) rows.new history.new (going result) }
{
    let at = p.bytes;
    let mut tally = p.tally;
    let i = row.0;
    let w = rows[i];
    let Some(parent) = packed::link(w).row() else {
        return p;
    };
    rows[i] = packed::relinked(w, Link(0));
    history::put_cut(history, at, row, parent);
    tally.raise_cut();
    Progress {
        count: p.count,
        bytes: at + history::CUT_SIZE,
        tally,
    }
}

// Each row of the value cut from its parent.
pub fn delete(rows: &mut [u32], history: &mut [u8], p: Progress, items: &[u16]) -> Progress
    requires { DeletePre rows.old history.old (going p) items.now }
    ensures { DeletePost rows.old history.old (going p) items.now
        rows.new history.new (going result) }
{
    let mut now = p;
    for item in items {
        now = cut_row(rows, history, now, RowNumber(usize::from(*item)));
    }
    now
}
