// The check of a table handed in: every rule of 'The table', rows past the count and fields not in use zero.
ghost use Rattle.std.specs.Prelude.{◌≡◌, ◌≤◌, ◌<◌, length, drop};
ghost use Rattle.model.specs.Base.{all};
ghost use Rattle.plan_table.specs.Packed.{is_zero, fits};
ghost use Rattle.plan_table.specs.Fitting.{tag_fits, is_element_below, is_root_below, link_fits, row_fits, rows_fit};
ghost use Rattle.plan_table.specs.Fitting.{mark_fits};
ghost use Rattle.plan_table.specs.Fitting.{marks_fit};

use crate::{Link, RowNumber, Table, marks, packed};

// A packed row, with its name or value in range.
fn tag_fits(w: u32) -> bool
    ensures { result ≡ tag_fits w }
{
    let tag = packed::tag(w);
    if 255 < tag {
        return false;
    }
    match packed::kind(w) {
        packed::ELEMENT => 0 < tag,
        packed::LEAF => true,
        _ => false,
    }
}

// The row is one of the first rows, as many as the bound says, and an element.
fn is_element_below(rows: &[u32], bound: usize, row: RowNumber) -> bool
    requires { bound ≤ length rows.now }
    ensures { result ≡ is_element_below rows.now bound row.0 }
{
    let at = row.0;
    if bound <= at {
        return false;
    }
    !packed::is_leaf(rows[at])
}

// The parent is an element with a lower number than the row.
pub fn is_lower_element(rows: &[u32], row: RowNumber, parent: RowNumber) -> bool
    requires { row.0 ≤ length rows.now }
    ensures { result ≡ is_element_below rows.now row.0 parent.0 }
{
    is_element_below(rows, row.0, parent)
}

// The row is one of the first rows, an element, and has no parent.
pub fn is_root_below(rows: &[u32], bound: usize, row: RowNumber) -> bool
    requires { bound ≤ length rows.now }
    ensures { result ≡ is_root_below rows.now bound row.0 }
{
    if !is_element_below(rows, bound, row) {
        return false;
    }
    let at = row.0;
    packed::link(rows[at]).row().is_none()
}

// A parent's link fits at a row: none, or a lower element.
fn link_fits(rows: &[u32], row: RowNumber, link: Link) -> bool
    requires { row.0 < length rows.now }
    ensures { result ≡ link_fits rows.now row.0 link.0 }
{
    match link.row() {
        None => true,
        Some(parent) => is_lower_element(rows, row, parent),
    }
}

// A row fits.
fn row_fits(rows: &[u32], row: RowNumber) -> bool
    requires { row.0 < length rows.now }
    ensures { result ≡ row_fits rows.now row.0 }
{
    let at = row.0;
    let w = rows[at];
    if !tag_fits(w) {
        return false;
    }
    link_fits(rows, row, packed::link(w))
}

// The rows below the count fit.
fn rows_fit(rows: &[u32], count: usize) -> bool
    requires { count ≤ length rows.now }
    ensures { result ≡ rows_fit rows.now 0 count }
{
    for i in 0..count {
        if !row_fits(rows, RowNumber(i)) {
            return false;
        }
    }
    true
}

// What stands past the count is zero.
fn rest_zero(rows: &[u32], count: usize) -> bool
    requires { count ≤ length rows.now }
    ensures { result ≡ all is_zero (drop count rows.now) }
{
    rows[count..].iter().all(|w| *w == 0)
}

// A mark fits: none, or an element without parent.
fn mark_fits(rows: &[u32], count: usize, link: Link) -> bool
    requires { count ≤ length rows.now }
    ensures { result ≡ mark_fits rows.now count link.0 }
{
    match link.row() {
        None => true,
        Some(row) => is_root_below(rows, count, row),
    }
}

// The marks fit, and no two are the same.
fn marks_fit(rows: &[u32], count: usize, marks: &[u16]) -> bool
    requires { count ≤ length rows.now }
    ensures { result ≡ marks_fit rows.now count marks.now }
{
    for (d, mark) in marks.iter().enumerate() {
        let link = Link(usize::from(*mark));
        if !mark_fits(rows, count, link) {
            return false;
        }
        if let Some(row) = link.row() {
            if marks::is_marked(&marks[d + 1..], row) {
                return false;
            }
        }
    }
    true
}

// The whole table fits.
pub fn fits(table: &Table) -> bool
    ensures { result ≡ fits table.now }
{
    let count = table.count;
    if Table::ROWS < count {
        return false;
    }
    let rows = &table.rows;
    if !rows_fit(rows, count) {
        return false;
    }
    if !rest_zero(rows, count) {
        return false;
    }
    marks_fit(rows, count, &table.marks)
}
