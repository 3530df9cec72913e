// Reads a stored plan, record by record: per record 1, 5, 2, 4, 6.
ghost use Rattle.std.specs.Prelude.{◌≡◌, cond, ◌+◌, ◌*◌, ◌<◌, eqb, get_or};
ghost use Rattle.model.specs.Stored.{leaf_kind};
ghost use Rattle.plan_table.specs.Packed.{element_bits, leaf_bits, link_room};
ghost use Rattle.plan_table.specs.StoredKinds.{byte_of};
ghost use Rattle.plan_table.specs.Results.{end_by, number_by};
ghost use Rattle.plan_reader.specs.Reading.{RowPre, RowPost, MarkPre, MarkPost, RecordPre, RecordPost, ReadPre, ReadPost, record_by};

use plan_table::stored::Kind;
use plan_table::{Link, Reason, Refusal, RowNumber, Table, fit, marks, number, packed, stored};

// After a record: rows so far; one more than the last document that marks a row.
#[derive(Clone, Copy)]
pub struct RecordRead {
    pub count: usize,
    pub last: usize,
}

// A stored row, packed: its kind and its name or value as they are stored, its parent's link.
fn packed_row(kind: Kind, tag: u8, parent: Link) -> u32
    requires { parent.0 < link_room }
    ensures { result ≡ cond (eqb (byte_of kind) leaf_kind) leaf_bits element_bits + 4 * parent.0 + 4096 * tag }
{
    match kind {
        Kind::Leaf => packed::leaf(tag, parent),
        Kind::Element | Kind::Mark => packed::element(number::name(tag), parent),
    }
}

// The row at the front of s, of a kind; not refused, the table has it.
fn row(kind: Kind, s: &[u8], rows: &mut [u32], count: usize, last: usize) -> Result<(), Reason>
    requires front { byte_of kind ≡ get_or s.now 0 0 }
    requires row { RowPre s.now rows.old count }
    ensures { RowPost s.now rows.old count last rows.new (number_by result) }
{
    let tag = s[1];
    if kind == Kind::Element && tag == 0 {
        return Err(Reason::Field);
    }
    if last != 0 {
        return Err(Reason::Link);
    }
    let stored = number::parent_at(s, 2);
    if let Some(parent) = stored {
        if !fit::is_lower_element(rows, RowNumber(count), parent) {
            return Err(Reason::Link);
        }
    }
    rows[count] = packed_row(kind, tag, Link::to(stored));
    Ok(())
}

// The mark at the front of s; not refused, the table has it.
fn mark(s: &[u8], rows: &[u32], marks: &mut [u16], count: usize, last: usize) -> Result<(), Reason>
    requires { MarkPre s.now rows.now marks.old count }
    ensures { MarkPost s.now rows.now marks.old count last marks.new (number_by result) }
{
    let document = usize::from(s[1]);
    if Table::DOCUMENTS <= document {
        return Err(Reason::Field);
    }
    if document < last {
        return Err(Reason::Link);
    }
    let row = number::number_at(s, 2);
    if !fit::is_root_below(rows, count, RowNumber(row)) {
        return Err(Reason::Link);
    }
    if marks::is_marked(marks, RowNumber(row)) {
        return Err(Reason::Link);
    }
    marks[document] = (row + 1) as u16;
    Ok(())
}

// The record at the front of s.
fn read_record(
    s: &[u8],
    rows: &mut [u32],
    marks: &mut [u16],
    count: usize,
    last: usize,
) -> Result<RecordRead, Reason>
    requires { RecordPre s.now rows.old marks.old count last }
    ensures { RecordPost s.now rows.old marks.old count
        rows.new marks.new (record_by result) }
{
    let kind = Kind::try_from(s[0])?;
    match kind {
        Kind::Mark => {
            if s.len() < stored::SIZE {
                return Err(Reason::Short);
            }
            mark(s, rows, marks, count, last)?;
            Ok(RecordRead {
                count,
                last: usize::from(s[1]) + 1,
            })
        }
        Kind::Element | Kind::Leaf => {
            if Table::ROWS <= count {
                return Err(Reason::Size);
            }
            if s.len() < stored::SIZE {
                return Err(Reason::Short);
            }
            row(kind, s, rows, count, last)?;
            Ok(RecordRead {
                count: count + 1,
                last,
            })
        }
    }
}

// Every record, into an empty table; how many rows they are.
pub fn records(bytes: &[u8], rows: &mut [u32], marks: &mut [u16]) -> Result<usize, Refusal>
    requires { ReadPre rows.old marks.old }
    ensures { ReadPost bytes.now rows.new marks.new (end_by result) }
{
    let mut count = 0;
    let mut last = 0;
    for at in (0..bytes.len()).step_by(stored::SIZE) {
        let read = read_record(&bytes[at..], rows, marks, count, last).map_err(|reason| Refusal {
            reason,
            place: at,
        })?;
        count = read.count;
        last = read.last;
    }
    Ok(count)
}
