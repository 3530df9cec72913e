// Reads a script from any bytes.
#![tactic(auto)]

ghost use Rattle.std.specs.Prelude.{◌≡◌};
ghost use Rattle.plan_table.specs.Results.{refusal_by};
ghost use Rattle.script.specs.Reading.{script_read};

use plan_table::{Reason, Refusal, Table};

mod read;

use read::Parsed;

// The refusal of a script, if it is refused: bytes after the whole come last.
pub fn read_script(bytes: &[u8]) -> Result<(), Refusal>
    ensures { refusal_by result ≡ script_read bytes.now }
{
    let mut whole = Parsed {
        place: 0,
        records: 0,
    };
    let reason = match read::expression(bytes, Table::DEPTH, 0, &mut whole) {
        Ok(()) if whole.place < bytes.len() => Reason::Tail,
        Ok(()) => return Ok(()),
        Err(reason) => reason,
    };
    Err(Refusal {
        reason,
        place: whole.place,
    })
}
