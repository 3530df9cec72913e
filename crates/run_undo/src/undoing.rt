// Undo: a history's form front to back, then its records back to front.
ghost use Rattle.std.specs.Prelude.{◌≡◌, true, ◌<◌, ◌≤◌, eqb, length, get_or, Ok, OnErr};
ghost use Rattle.model.specs.History.{made_leaf_kind, made_size, cut_size};
ghost use Rattle.model.specs.Limits.{max_history};
ghost use Rattle.model.specs.Stored.{parent_in, number_at};
ghost use Rattle.model.specs.Undo.{same_bool, same_parent, made_fits, cut_fits};
ghost use Rattle.plan_table.specs.Packed.{kind_in, leaf_bits, of_link, decode_parts, fits};
ghost use Rattle.plan_table.specs.Results.{end_by, lent_by, number_by};
ghost use Rattle.run_undo.specs.Undoing.{FormPost, PlacesPost, FitPre, row_made, BackPre, BackPost, AllPre, AllPost};
ghost use Rattle.run_undo.specs.Undoing.{plan_undone, back_by};
ghost use Rattle.run_updates.specs.HistoryKinds.{byte_of};

use plan_table::{Link, Reason, Refusal, RowNumber, Table, fit, marks, number, packed};
use run_updates::history::Kind;

// The kind of the record at the front of s, past so many records, or its refusal: 1, 5, 2, 4.
fn front(s: &[u8], records: usize) -> Result<Kind, Reason>
    requires { 0 < length s.now }
    ensures form { FormPost s.now records (number_by result) }
    ensures kind { (k : Kind) → result ≡ Ok k → byte_of k ≡ get_or s.now 0 0 }
{
    let kind = Kind::try_from(s[0])?;
    if Table::HISTORY_RECORDS <= records {
        return Err(Reason::Size);
    }
    if s.len() < kind.size() {
        return Err(Reason::Short);
    }
    match kind {
        Kind::Element => {
            if s[3] == 0 {
                return Err(Reason::Field);
            }
        }
        Kind::Leaf | Kind::Cut => {}
    }
    Ok(kind)
}

// The form of the whole history; the places of its records, and how many they are.
fn form(bytes: &[u8], places: &mut [u16]) -> Result<usize, Refusal>
    requires { length places.old ≡ max_history }
    ensures { PlacesPost bytes.now places.new (end_by result) }
{
    let mut at = 0;
    let mut records = 0;
    // A while: how far on the next record stands is told by this one's kind, which no range or chunk says plainer.
    while at < bytes.len() {
        let kind = front(&bytes[at..], records).map_err(|reason| Refusal { reason, place: at })?;
        places[records] = at as u16;
        records += 1;
        at += kind.size();
    }
    Ok(records)
}

// A packed row and the kind of a record of a row made say the same.
fn same_kind(w: u32, kind: Kind) -> bool
    ensures { result ≡ same_bool (eqb (kind_in w) leaf_bits) (eqb (byte_of kind) made_leaf_kind) }
{
    match kind {
        Kind::Leaf => packed::is_leaf(w),
        Kind::Element | Kind::Cut => !packed::is_leaf(w),
    }
}

// A row's link and the parent in the record s of a row made say the same.
fn same_parent(link: Link, s: &[u8]) -> bool
    requires { made_size ≤ length s.now }
    ensures { result ≡ same_parent (of_link link.0) (parent_in (number_at s.now 4)) }
{
    link.row() == number::parent_at(s, 4)
}

// The row made by the record s of a kind is the last, unmarked, and equal to it.
fn made_fits(rows: &[u32], marks: &[u16], count: usize, kind: Kind, s: &[u8]) -> bool
    requires front { byte_of kind ≡ get_or s.now 0 0 }
    requires fit { FitPre rows.now count s.now made_size }
    ensures { result ≡ made_fits (decode_parts count rows.now marks.now) (number_at s.now 1)
        (row_made s.now) }
{
    let row = number::number_at(s, 1);
    if row + 1 != count {
        return false;
    }
    if marks::is_marked(marks, RowNumber(row)) {
        return false;
    }
    let w = rows[row];
    if !same_kind(w, kind) {
        return false;
    }
    if packed::tag(w) != u32::from(s[3]) {
        return false;
    }
    same_parent(packed::link(w), s)
}

// The row cut by the record s has no parent and no mark, and its old parent is a lower element.
fn cut_fits(rows: &[u32], marks: &[u16], count: usize, s: &[u8]) -> bool
    requires { FitPre rows.now count s.now cut_size }
    ensures { result ≡ cut_fits (decode_parts count rows.now marks.now) (number_at s.now 1)
        (number_at s.now 3) }
{
    let row = number::number_at(s, 1);
    if count <= row {
        return false;
    }
    if packed::link(rows[row]).0 != 0 {
        return false;
    }
    if marks::is_marked(marks, RowNumber(row)) {
        return false;
    }
    let parent = number::number_at(s, 3);
    fit::is_lower_element(rows, RowNumber(row), RowNumber(parent))
}

// The record s undone: the link is back, or the last row is gone. How many rows there are then.
fn undo_record(rows: &mut [u32], marks: &[u16], count: usize, s: &[u8]) -> Result<usize, Reason>
    requires { BackPre rows.old count s.now }
    ensures { BackPost rows.old marks.now count s.now rows.new (back_by result) }
{
    let kind = Kind::try_from(s[0])?;
    match kind {
        Kind::Cut => {
            if !cut_fits(rows, marks, count, s) {
                return Err(Reason::Link);
            }
            let row = number::number_at(s, 1);
            let link = number::number_at(s, 3) + 1;
            rows[row] = packed::relinked(rows[row], Link(link));
            Ok(count)
        }
        Kind::Element | Kind::Leaf => {
            if !made_fits(rows, marks, count, kind, s) {
                return Err(Reason::Link);
            }
            rows[count - 1] = 0;
            Ok(count - 1)
        }
    }
}

// Every record undone, the last first. How many rows there are then.
fn undo_all(
    rows: &mut [u32],
    marks: &[u16],
    count: usize,
    bytes: &[u8],
    places: &[u16],
) -> Result<usize, Refusal>
    requires { AllPre rows.old count bytes.now places.now (length places.now) }
    ensures { AllPost rows.old marks.now count bytes.now places.now (length places.now)
        rows.new (end_by result) }
{
    let mut left = count;
    for place in places.iter().rev() {
        let at = usize::from(*place);
        left = undo_record(rows, marks, left, &bytes[at..]).map_err(|reason| Refusal {
            reason,
            place: at,
        })?;
    }
    Ok(left)
}

// Takes a run back on a table that fits; refused, what its rows then hold is not said.
pub fn fitting(table: &mut Table, history: &[u8]) -> Result<(), Refusal>
    requires { fits table.old ≡ true }
    ensures table_after { lent_by table.old table.new result ≡ plan_undone table.old history.now }
    ensures marks_after { table.new.marks ≡ table.old.marks }
    ensures count_after { OnErr result (table.new.count ≡ table.old.count) }
{
    let mut places = [0u16; Table::HISTORY_RECORDS];
    let records = form(history, &mut places)?;
    table.count = undo_all(
        &mut table.rows,
        &table.marks,
        table.count,
        history,
        &places[..records],
    )?;
    Ok(())
}
