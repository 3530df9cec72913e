// Numbers of one byte and of two: widened, as a name, read from a record, and stored for a parent.
ghost use Rattle.std.specs.Prelude.{◌≡◌, ◌+◌, ◌<◌, length};
ghost use Rattle.model.specs.Base.{over};
ghost use Rattle.model.specs.Stored.{number_at, number_bytes, parent_bytes, parent_in};
ghost use Rattle.plan_table.specs.Links.{row_by};
ghost use Rattle.plan_table.specs.Packed.{of_link};

use crate::{Link, NameNumber, RowNumber};

// Stored for the parent where there is none.
pub const NONE: usize = 0xFFFF;

// A byte as a size.
pub fn byte(b: u8) -> usize
    ensures value { result ≡ b }
    ensures upper_bound { result < 256 }
{
    usize::from(b)
}

// A byte widened, to be compared with the name or value that a packed row holds.
pub fn wide(b: u8) -> u32
    ensures value { result ≡ b }
    ensures upper_bound { result < 256 }
{
    u32::from(b)
}

// A byte as an element's name.
pub fn name(b: u8) -> NameNumber
    ensures { result.0 ≡ b }
{
    NameNumber(u16::from(b))
}

// A two-byte number as a size.
pub fn index(n: u16) -> usize
    ensures value { result ≡ n }
    ensures upper_bound { result < 65536 }
{
    usize::from(n)
}

// The two-byte number at a place of a record.
pub fn number_at(s: &[u8], at: usize) -> usize
    requires { at + 1 < length s.now }
    ensures value { result ≡ number_at s.now at }
    ensures upper_bound { result < 65536 }
{
    usize::from(u16::from_le_bytes([s[at], s[at + 1]]))
}

// Writes a two-byte number at a place.
pub fn put(out: &mut [u8], at: usize, n: usize)
    requires in_bounds { at + 1 < length out.old }
    requires n_bound { n < 65536 }
    ensures { out.new ≡ over at (number_bytes n) out.old }
{
    out[at..at + 2].copy_from_slice(&(n as u16).to_le_bytes());
}

// The number stored for the row with this link.
pub fn parent(link: Link) -> usize
    requires { link.0 < 65536 }
    ensures result_value { number_bytes result ≡ parent_bytes (of_link link.0) }
    ensures upper_bound { result < 65536 }
{
    match link.row() {
        None => NONE,
        Some(row) => row.0,
    }
}

// The parent's row stored at a place of a record, if it has one.
pub fn parent_at(s: &[u8], at: usize) -> Option<RowNumber>
    requires { at + 1 < length s.now }
    ensures { row_by result ≡ parent_in (number_at s.now at) }
{
    let row = number_at(s, at);
    if row == NONE {
        return None;
    }
    Some(RowNumber(row))
}
