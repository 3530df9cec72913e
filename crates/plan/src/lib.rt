// The stored form of a plan: read into a table, and written from one.
#![tactic(auto)]

ghost use Rattle.std.specs.Prelude.{◌≡◌};
ghost use Rattle.plan.specs.Calls.{plan_read};
ghost use Rattle.plan_table.specs.Results.{bytes_by, table_by};
ghost use Rattle.plan_writer.specs.Writing.{plan_written, written_out};

use plan_reader::read;
use plan_table::{Reason, Refusal, Refused, Table, fit};
use plan_writer::write;

// Reads a stored plan; refused, the table given back is the empty one.
pub fn read_plan(bytes: &[u8]) -> Result<Table, Refused<Table>>
    ensures { table_by result ≡ plan_read bytes.now }
{
    let mut table = Table::empty();
    match read::records(bytes, &mut table.rows, &mut table.marks) {
        Ok(count) => {
            table.count = count;
            Ok(table)
        }
        Err(refusal) => Err(Refused {
            refusal,
            left: Table::empty(),
        }),
    }
}

// Writes a table in its stored form. 6 before 11; bytes past the stored length stay; refused, nothing is written.
pub fn write_plan(table: Table, out: &mut [u8]) -> Result<usize, Refusal>
    ensures value { bytes_by result ≡ plan_written table out.old }
    ensures out_after { out.new ≡ written_out table out.old }
{
    if !fit::fits(&table) {
        return Err(Refusal {
            reason: Reason::Link,
            place: 0,
        });
    }
    write::fitting(&table, out)
}
