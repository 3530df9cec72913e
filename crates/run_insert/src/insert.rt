// Insert: copies of rows with all their descendants, as the table was before, under a target.
ghost use Rattle.std.specs.Prelude.{◌≡◌, ◌≤◌, ◌<◌, length};
ghost use Rattle.run_updates.specs.State.{going, came};
ghost use Rattle.run_insert.specs.Inserting.{copier, copy_link, NextPre, NextPost, ScanPre, ScanPost, ItemPre, ItemPost};
ghost use Rattle.run_insert.specs.Inserting.{ItemsPre, ItemsPost, InsertPre, InsertPost};

use plan_table::{Link, Reason, RowNumber, Table, packed};
use run_updates::state::Progress;
use run_updates::update;

// A row that has no copy; a number, since a map of Option<u16> would take twice the 1,024 bytes of stack that yegnabit.h's figures bound.
const NO_COPY: u16 = 0xFFFF;

// The link to the copy of this parent; none if the parent was not copied since top.
fn copy_link(map: &[u16], top: RowNumber, link: Link) -> Link
    requires { link.0 ≤ length map.now }
    ensures { result.0 ≡ copy_link map.now top.0 link.0 }
{
    let Some(parent) = link.row() else {
        return Link(0);
    };
    if parent.0 < top.0 || map[parent.0] == NO_COPY {
        return Link(0);
    }
    Link::to(Some(RowNumber(usize::from(map[parent.0]))))
}

// A row of the scan from top: a copy under its parent's copy, if there is one.
fn copy_next(
    rows: &mut [u32],
    history: &mut [u8],
    map: &mut [u16],
    p: Progress,
    top: RowNumber,
    row: RowNumber,
) -> Result<Progress, Reason>
    requires { NextPre top.0 row.0 (copier rows.old history.old map.old (going p)) }
    ensures { NextPost top.0 row.0 (copier rows.old history.old map.old (going p))
        (copier rows.new history.new map.new (came result)) }
{
    let j = row.0;
    let w = rows[j];
    let link = copy_link(map, top, packed::link(w));
    if link.0 == 0 {
        map[j] = NO_COPY;
        return Ok(p);
    }
    let count = p.count;
    map[j] = count as u16;
    update::new_row(rows, history, p, packed::relinked(w, link))
}

// The rows past top and below old, each under its parent's copy.
fn copy_rest(
    rows: &mut [u32],
    history: &mut [u8],
    map: &mut [u16],
    p: Progress,
    old: usize,
    top: RowNumber,
) -> Result<Progress, Reason>
    requires { ScanPre old top.0 (copier rows.old history.old map.old (going p)) }
    ensures { ScanPost old top.0 (copier rows.old history.old map.old (going p))
        (copier rows.new history.new map.new (came result)) }
{
    let mut now = p;
    for j in top.0 + 1..old {
        now = copy_next(rows, history, map, now, top, RowNumber(j))?;
    }
    Ok(now)
}

// The item top under the target, then its descendants below old.
fn copy_item(
    rows: &mut [u32],
    history: &mut [u8],
    map: &mut [u16],
    p: Progress,
    old: usize,
    top: RowNumber,
    target: RowNumber,
) -> Result<Progress, Reason>
    requires { ItemPre old top.0 target.0 (copier rows.old history.old map.old (going p)) }
    ensures { ItemPost old top.0 target.0 (copier rows.old history.old map.old (going p))
        (copier rows.new history.new map.new (came result)) }
{
    let count = p.count;
    let i = top.0;
    map[i] = count as u16;
    let w = packed::relinked(rows[i], Link::to(Some(target)));
    let next = update::new_row(rows, history, p, w)?;
    copy_rest(rows, history, map, next, old, top)
}

// Each item, as the table was before.
fn copy_items(
    rows: &mut [u32],
    history: &mut [u8],
    map: &mut [u16],
    p: Progress,
    items: &[u16],
    target: RowNumber,
) -> Result<Progress, Reason>
    requires { ItemsPre items.now target.0 (copier rows.old history.old map.old (going p)) }
    ensures { ItemsPost items.now target.0 (copier rows.old history.old map.old (going p))
        (copier rows.new history.new map.new (came result)) }
{
    let old = p.count;
    let mut now = p;
    for item in items {
        now = copy_item(
            rows,
            history,
            map,
            now,
            old,
            RowNumber(usize::from(*item)),
            target,
        )?;
    }
    Ok(now)
}

// Insert of a value into a target value: 7 where that is not one element, then 10.
pub fn insert(
    rows: &mut [u32],
    history: &mut [u8],
    p: Progress,
    items: &[u16],
    targets: &[u16],
) -> Result<Progress, Reason>
    requires { InsertPre rows.old history.old (going p) items.now targets.now }
    ensures { InsertPost rows.old history.old (going p) items.now targets.now
        rows.new history.new (came result) }
{
    if targets.len() != 1 {
        return Err(Reason::Target);
    }
    let target = usize::from(targets[0]);
    if packed::kind(rows[target]) == packed::LEAF {
        return Err(Reason::Target);
    }
    let mut map = [0u16; Table::ROWS];
    copy_items(rows, history, &mut map, p, items, RowNumber(target))
}
