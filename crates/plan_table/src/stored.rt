// The records of a stored plan: their kinds and their size.
ghost use Rattle.plan_table.specs.StoredKinds.{KindRead};

use crate::Reason;

#[derive(Clone, Copy, Debug, PartialEq, Eq)]
pub enum Kind {
    Element = 0x11,
    Leaf = 0x12,
    Mark = 0x13,
}

// The bytes of a record of any kind.
pub const SIZE: usize = 4;

impl TryFrom<u8> for Kind {
    type Error = Reason;

    ghost try_from_gives = { KindRead };

    // The kind that a byte is.
    fn try_from(byte: u8) -> Result<Kind, Reason> {
        match byte {
            0x11 => Ok(Kind::Element),
            0x12 => Ok(Kind::Leaf),
            0x13 => Ok(Kind::Mark),
            _ => Err(Reason::Kind),
        }
    }
}
