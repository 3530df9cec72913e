// Calls that tests need and a site does not: a script read alone, and writing and sweeping on any table, well formed or not.
// Answers are numbers as in the C interface (crates/yegnabit). crates/c_probe_c exports these calls to C.
#![tactic(auto)]

ghost use Rattle.std.specs.Prelude.{◌≡◌};
ghost use Rattle.c_codes.specs.Codes.{code_of};
ghost use Rattle.c_probe.specs.Probes.{write_values, write_out, swept_values, rows_left, marks_left, script_values};

use c_codes::answer;
use c_codes::answer::Whose;
use plan_table::{Reason, Table};

mod copy;

// Writes a table given as 512 packed rows and 8 marks: the call of the library on any table, well formed or not.
pub fn yegnabit_write_table(count: usize, rows: &[u32], marks: &[u16], out: &mut [u8]) -> u64
    ensures value { result ≡ code_of (write_values count rows.now marks.now out.old) }
    ensures out_after { out.new ≡ write_out count rows.now marks.now out.old }
{
    if rows.len() != Table::ROWS {
        return answer::lent_short();
    }
    if marks.len() != Table::DOCUMENTS {
        return answer::lent_short();
    }
    match plan::write_plan(copy::table_of(count, rows, marks), out) {
        Ok(bytes) => answer::code(0, 0, bytes),
        Err(refusal) => match refusal.reason {
            Reason::Link => answer::code(u8::from(refusal.reason), Whose::Plan as u8, 0),
            _ => answer::code(u8::from(refusal.reason), Whose::Area as u8, 0),
        },
    }
}

// Sweeps a table given as 512 packed rows and 8 marks, in place.
pub fn yegnabit_sweep_table(count: usize, rows: &mut [u32], marks: &mut [u16]) -> u64
    ensures value { result ≡ code_of (swept_values count rows.old marks.old) }
    ensures rows_after { rows.new ≡ rows_left count rows.old marks.old }
    ensures marks_after { marks.new ≡ marks_left count rows.old marks.old }
{
    if rows.len() != Table::ROWS {
        return answer::lent_short();
    }
    if marks.len() != Table::DOCUMENTS {
        return answer::lent_short();
    }
    let t = copy::table_of(count, rows, marks);
    match plan_sweep::sweep_table(t) {
        Ok(swept) => {
            copy::put_table(swept, rows, marks);
            answer::code(0, 0, swept.count)
        }
        Err(refused) => answer::code(u8::from(refused.refusal.reason), Whose::Plan as u8, 0),
    }
}

// Reads a script: its refusal, or 0.
pub fn yegnabit_script(bytes: &[u8]) -> u64
    ensures { result ≡ code_of (script_values bytes.now) }
{
    match script::read_script(bytes) {
        Ok(()) => answer::code(0, 0, 0),
        Err(refusal) => answer::refused(Whose::Script, refusal),
    }
}
