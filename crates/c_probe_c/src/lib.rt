// The calls of crates/c_probe, with their contracts, exported to C for tests. A slice is a pointer and a length.
#![tactic(auto)]

ghost use Rattle.std.specs.Prelude.{◌≡◌};
ghost use Rattle.c_codes.specs.Codes.{code_of};
ghost use Rattle.c_probe.specs.Probes.{write_values, write_out, swept_values, rows_left, marks_left, script_values};

// Writes a table given as 512 packed rows and 8 marks: the call of the library on any table, well formed or not.
#[unsafe(no_mangle)]
pub extern "C" fn yegnabit_write_table(
    count: usize,
    rows: &[u32],
    marks: &[u16],
    out: &mut [u8],
) -> u64
    ensures value { result ≡ code_of (write_values count rows.now marks.now out.old) }
    ensures out_after { out.new ≡ write_out count rows.now marks.now out.old }
{
    c_probe::yegnabit_write_table(count, rows, marks, out)
}

// Sweeps a table given as 512 packed rows and 8 marks, in place.
#[unsafe(no_mangle)]
pub extern "C" fn yegnabit_sweep_table(count: usize, rows: &mut [u32], marks: &mut [u16]) -> u64
    ensures value { result ≡ code_of (swept_values count rows.old marks.old) }
    ensures rows_after { rows.new ≡ rows_left count rows.old marks.old }
    ensures marks_after { marks.new ≡ marks_left count rows.old marks.old }
{
    c_probe::yegnabit_sweep_table(count, rows, marks)
}

// Reads a script: its refusal, or 0.
#[unsafe(no_mangle)]
pub extern "C" fn yegnabit_script(bytes: &[u8]) -> u64
    ensures { result ≡ code_of (script_values bytes.now) }
{
    c_probe::yegnabit_script(bytes)
}
