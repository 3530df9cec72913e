// A row packed into a number: kind in 2 bits, the parent's link in 10, name or value above.
ghost use Rattle.std.specs.Prelude.{◌≡◌, ◌+◌, ◌*◌, ◌/◌, ◌%◌, ◌<◌, eqb};
ghost use Rattle.plan_table.specs.Packed.{element_bits, leaf_bits, kind_in, link_in, tag_in, with_link, link_room};

use crate::{Link, NameNumber};

pub const ELEMENT: u32 = 1;

pub const LEAF: u32 = 2;

pub fn kind(w: u32) -> u32
    ensures { result ≡ kind_in w }
{
    w % 4
}

// Whether it is a leaf. Its kind stays a number: a table handed in may have any two bits there, and whoever asks for the kind reads them
// as they are.
pub fn is_leaf(w: u32) -> bool
    ensures { result ≡ eqb (kind_in w) leaf_bits }
{
    kind(w) == LEAF
}

pub fn link(w: u32) -> Link
    ensures { result.0 ≡ link_in w }
{
    Link((w / 4 % 1024) as usize)
}

pub fn tag(w: u32) -> u32
    ensures { result ≡ tag_in w }
{
    w / 4096
}

// An element, packed.
pub fn element(name: NameNumber, parent: Link) -> u32
    requires { parent.0 < link_room }
    ensures { result ≡ element_bits + 4 * parent.0 + 4096 * name.0 }
{
    ELEMENT + 4 * (parent.0 as u32) + 4096 * u32::from(name.0)
}

// A leaf, packed.
pub fn leaf(value: u8, parent: Link) -> u32
    requires { parent.0 < link_room }
    ensures { result ≡ leaf_bits + 4 * parent.0 + 4096 * value }
{
    LEAF + 4 * (parent.0 as u32) + 4096 * u32::from(value)
}

// A packed row with another link to the parent.
pub fn relinked(w: u32, parent: Link) -> u32
    requires { parent.0 < link_room }
    ensures { result ≡ with_link w parent.0 }
{
    w % 4 + 4 * (parent.0 as u32) + 4096 * (w / 4096)
}
