// Writes a table in its stored form: rows in number order, then marks with rising document.
ghost use Rattle.std.specs.Prelude.{◌≡◌, true, ◌∷◌, map, ℕ, ◌+◌, ◌*◌, ◌≤◌, ◌<◌, length};
ghost use Rattle.model.specs.Stored.{record_size, parent_bytes, row_bytes, rows_bytes, mark_bytes, marks_bytes};
ghost use Rattle.model.specs.Limits.{max_rows, documents};
ghost use Rattle.plan_table.specs.Packed.{of_link, byte_tags, fits, row_of, rows_of};
ghost use Rattle.plan_table.specs.StoredKinds.{byte_of};
ghost use Rattle.plan_table.specs.Results.{bytes_by};
ghost use Rattle.plan_writer.specs.Writing.{plan_written, written_out, RowsPre, MarksPre};
ghost use Rattle.model.specs.Base.{over};

use plan_table::stored::Kind;
use plan_table::{Link, Reason, Refusal, Table, number, packed, stored};

// A record at a place: its kind, its first field, and the number stored for a link.
fn put(out: &mut [u8], at: usize, kind: Kind, field: u8, link: Link)
    requires at_in_bounds { at + 4 ≤ length out.old }
    requires link_bound { link.0 < 65536 }
    ensures { out.new ≡ over at (byte_of kind ∷ field ∷ parent_bytes (of_link link.0)) out.old }
{
    out[at] = kind as u8;
    out[at + 1] = field;
    number::put(out, at + 2, number::parent(link));
}

// One row's record at a place.
fn row(out: &mut [u8], at: usize, w: u32)
    requires at_in_bounds { at + 4 ≤ length out.old }
    requires w_lt_byte_tags { w < byte_tags }
    ensures { out.new ≡ over at (row_bytes (row_of w)) out.old }
{
    let link = packed::link(w);
    let field = packed::tag(w) as u8;
    let kind = if packed::is_leaf(w) {
        Kind::Leaf
    } else {
        Kind::Element
    };
    put(out, at, kind, field, link);
}

// The rows below the count, from the area's start on.
pub fn rows(out: &mut [u8], rows: &[u32], count: usize)
    requires { RowsPre rows.now out.old count }
    ensures { out.new ≡ over 0 (rows_bytes (rows_of count rows.now)) out.old }
{
    for i in 0..count {
        row(out, stored::SIZE * i, rows[i]);
    }
}

// The bytes of a mark's record, none where there is no mark.
fn mark_length(link: Link) -> usize
    ensures { (d : ℕ) → result ≡ length (mark_bytes d (of_link link.0)) }
{
    match link.row() {
        None => 0,
        Some(_) => stored::SIZE,
    }
}

// One mark's record at a place, if there is a mark.
fn mark(out: &mut [u8], at: usize, document: u8, link: Link)
    requires link_bound { link.0 < 65536 }
    requires link_in_bounds { at + length (mark_bytes document (of_link link.0)) ≤ length out.old }
    ensures { out.new ≡ over at (mark_bytes document (of_link link.0)) out.old }
{
    if link.row().is_none() {
        return;
    }
    put(out, at, Kind::Mark, document, link);
}

// The marks, from a place on.
pub fn marks(out: &mut [u8], marks: &[u16], start: usize)
    requires { MarksPre marks.now out.old start }
    ensures { out.new ≡ over start (marks_bytes 0 (map of_link marks.now)) out.old }
{
    let mut at = start;
    for (d, m) in marks.iter().enumerate() {
        let link = usize::from(*m);
        mark(out, at, d as u8, Link(link));
        at += mark_length(Link(link));
    }
}

// The bytes that a table's rows and marks take.
pub fn stored_length(count: usize, marks: &[u16]) -> usize
    requires { (count ≤ max_rows) × (length marks.now ≡ documents) }
    ensures { result ≡ record_size * count + length (marks_bytes 0 (map of_link marks.now)) }
{
    let mut n = stored::SIZE * count;
    for m in marks {
        n += mark_length(Link(usize::from(*m)));
    }
    n
}

// The rows and marks of a table that fits, at the start of the area; 11 where that is too short.
pub fn fitting(table: &Table, out: &mut [u8]) -> Result<usize, Refusal>
    requires { fits table.now ≡ true }
    ensures value { bytes_by result ≡ plan_written table.now out.old }
    ensures out_after { out.new ≡ written_out table.now out.old }
{
    let length = stored_length(table.count, &table.marks);
    if out.len() < length {
        return Err(Refusal {
            reason: Reason::Lent,
            place: 0,
        });
    }
    rows(out, &table.rows, table.count);
    marks(out, &table.marks, stored::SIZE * table.count);
    Ok(length)
}
