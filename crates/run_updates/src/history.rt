// The history's records: their kinds and sizes, and how they are written.
ghost use Rattle.std.specs.Prelude.{◌≡◌, ◌+◌, ◌≤◌, ◌<◌, length};
ghost use Rattle.model.specs.Limits.{max_rows};
ghost use Rattle.model.specs.History.{record_bytes, made, cut, made_size, cut_size, history_size};
ghost use Rattle.plan_table.specs.Packed.{tag_in, row_of, link_room};
ghost use Rattle.model.specs.Base.{over};
ghost use Rattle.run_updates.specs.HistoryKinds.{byte_of, KindRead};
ghost use Rattle.run_updates.specs.Updating.{made_kind, six_bytes};

use plan_table::{Link, Reason, RowNumber, number, packed};

#[derive(Clone, Copy, Debug, PartialEq, Eq)]
pub enum Kind {
    Element = 0x41,
    Leaf = 0x42,
    Cut = 0x43,
}

// Bytes of a made row's record, and of a cut link's.
pub const MADE_SIZE: usize = 6;

pub const CUT_SIZE: usize = 5;

impl TryFrom<u8> for Kind {
    type Error = Reason;

    ghost try_from_gives = { KindRead };

    // The kind that a byte is.
    fn try_from(byte: u8) -> Result<Kind, Reason> {
        match byte {
            0x41 => Ok(Kind::Element),
            0x42 => Ok(Kind::Leaf),
            0x43 => Ok(Kind::Cut),
            _ => Err(Reason::Kind),
        }
    }
}

impl From<Kind> for u8 {
    ghost from_gives = { λ kind byte. byte ≡ byte_of kind };

    // Its byte.
    fn from(kind: Kind) -> u8 {
        kind as u8
    }
}

impl Kind {
    // Bytes of a record.
    pub fn size(self) -> usize
        ensures { result ≡ history_size (byte_of self) }
    {
        match self {
            Kind::Element | Kind::Leaf => MADE_SIZE,
            Kind::Cut => CUT_SIZE,
        }
    }
}

// The kind of the record of a row made.
fn made_kind(w: u32) -> Kind
    ensures { byte_of result ≡ made_kind w }
{
    if packed::is_leaf(w) {
        return Kind::Leaf;
    }
    Kind::Element
}

// A made row's record at a place, field by field.
fn put_six(history: &mut [u8], at: usize, kind: Kind, row: RowNumber, tag: u8, parent: Link)
    requires made_size_in_bounds { at + made_size ≤ length history.old }
    requires row_lt_max_rows { row.0 < max_rows }
    requires parent_lt_link_room { parent.0 < link_room }
    ensures { history.new ≡ over at (six_bytes (byte_of kind) row.0 tag parent.0) history.old }
{
    let number = number::parent(parent);
    history[at] = u8::from(kind);
    number::put(history, at + 1, row.0);
    history[at + 3] = tag;
    number::put(history, at + 4, number);
}

// The record of row w made, at a place.
pub fn put_made(history: &mut [u8], at: usize, row: RowNumber, w: u32)
    requires made_size_in_bounds { at + made_size ≤ length history.old }
    requires row_lt_max_rows { row.0 < max_rows }
    requires w_bound { tag_in w < 256 }
    ensures { history.new ≡ over at (record_bytes (made row.0 (row_of w))) history.old }
{
    let tag = packed::tag(w) as u8;
    put_six(history, at, made_kind(w), row, tag, packed::link(w));
}

// The record of a row cut from its parent, at a place.
pub fn put_cut(history: &mut [u8], at: usize, row: RowNumber, parent: RowNumber)
    requires cut_size_in_bounds { at + cut_size ≤ length history.old }
    requires row_lt_max_rows { row.0 < max_rows }
    requires parent_lt_max_rows { parent.0 < max_rows }
    ensures { history.new ≡ over at (record_bytes (cut row.0 parent.0)) history.old }
{
    history[at] = u8::from(Kind::Cut);
    number::put(history, at + 1, row.0);
    number::put(history, at + 3, parent.0);
}
