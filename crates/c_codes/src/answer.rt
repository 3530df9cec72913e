// The number that a C call answers, and the end of one that gives a table.
ghost use Rattle.std.specs.Prelude.{◌≡◌, true};
ghost use Rattle.plan_table.specs.Packed.{fits};
ghost use Rattle.plan_writer.specs.Writing.{plan_written, written_out};
ghost use Rattle.model.specs.Refusal.{values};
ghost use Rattle.c_codes.specs.Codes.{code_of, lent_values, written_values, which_of, refused_values};

use plan_table::{Reason, Refusal, Table};
use plan_writer::write;

// Whose refusal it is: a lent area's; the plan's; the script's, the run's or the history's.
#[derive(Clone, Copy, Debug, PartialEq, Eq)]
pub enum Whose {
    Area = 0,
    Plan = 1,
    Script = 2,
}

// A place takes 48 bits: more than any memory has bytes.
const PLACES: u64 = 0x1_0000_0000_0000;

// number + 256 × which + 65,536 × place.
pub fn code(number: u8, which: u8, place: usize) -> u64
    ensures { result ≡ code_of (values number which place) }
{
    (number as u64) + 256 * (which as u64) + 65536 * (place as u64 % PLACES)
}

// A refusal, and whose it is.
pub fn refused(whose: Whose, refusal: Refusal) -> u64
    ensures { result ≡ code_of (refused_values (which_of whose) refusal) }
{
    code(u8::from(refusal.reason), whose as u8, refusal.place)
}

// A lent area is too short.
pub fn lent_short() -> u64
    ensures { result ≡ code_of lent_values }
{
    code(u8::from(Reason::Lent), Whose::Area as u8, 0)
}

// The end of a call that gives a table that fits: it is written, and how many bytes.
pub fn finish(table: &Table, out: &mut [u8]) -> u64
    requires { fits table.now ≡ true }
    ensures value { result ≡ code_of (written_values (plan_written table.now out.old)) }
    ensures out_after { out.new ≡ written_out table.now out.old }
{
    match write::fitting(table, out) {
        Ok(bytes) => code(0, 0, bytes),
        Err(refusal) => code(u8::from(refusal.reason), Whose::Area as u8, 0),
    }
}
