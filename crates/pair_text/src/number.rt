// Numbers in decimal.
ghost use Rattle.std.specs.Prelude.{◌+◌, ◌≤◌, length};
ghost use Rattle.pair_text.specs.Text.{Number, Field};

use crate::text;

// Writes a number in decimal, of 20 digits at most, to a place of the area; the place past it.
fn put_number(out: &mut [u8], at: usize, n: usize) -> usize
    requires { at + 20 ≤ length out.old }
    ensures { Number out.old at n out.new result }
{
    if n < 10 {
        out[at] = b'0' + n as u8;
        return at + 1;
    }
    let last = put_number(out, at, n / 10);
    out[last] = b'0' + (n % 10) as u8;
    last + 1
}

// Writes a space and a number.
pub fn put_field(out: &mut [u8], at: usize, n: usize) -> usize
    requires { at + 21 ≤ length out.old }
    ensures { Field out.old at n out.new result }
{
    let next = text::put(out, at, b" ");
    put_number(out, next, n)
}
