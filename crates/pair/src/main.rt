// The program `pair`: reads the files plan, first and second of the current folder, and prints the report on them.
#![tactic(auto)]

ghost use Rattle.std.specs.Prelude.{take};
ghost use Rattle.std.specs.Io.KnownBytes.{Consumes};
ghost use Rattle.pair_report.specs.Pair.{Counted};

use std::fs::File;
use std::io;
use std::io::{Read, Write};
use std::rt::Files;

// Reads until the buffer is full, the input ends or a read fails, and counts the bytes.
fn read_full<R: Read>(input: &mut R, buffer: &mut [u8]) -> usize
    ensures counted { Counted result buffer.new }
    ensures bytes { Consumes (R.remaining input.old) (R.remaining input.new) (take result buffer.new) }
{
    let mut done = 0;
    while done < buffer.len() {
        let Ok(n) = input.read(&mut buffer[done..]) else {
            break;
        };
        if n == 0 {
            break;
        }
        done += n;
    }
    done
}

// Reads a file until the buffer is full, the file ends or a read fails; a file that cannot be opened counts as empty.
fn read_file(rt: &impl Files, name: &str, buffer: &mut [u8]) -> usize
    ensures { Counted result buffer.new }
{
    let Ok(mut file) = File::open(rt, name) else {
        return 0;
    };
    read_full(&mut file, buffer)
}

// A buffer has 4,096 bytes, which is enough to refuse any longer file.
fn main(rt: HostRuntime) -> io::Result<()> {
    let mut plan = [0u8; 4096];
    let n = read_file(&rt, "plan", &mut plan);
    let mut first = [0u8; 4096];
    let m = read_file(&rt, "first", &mut first);
    let mut second = [0u8; 4096];
    let k = read_file(&rt, "second", &mut second);
    let mut out = [0u8; pair_report::ROOM];
    let bytes = pair_report::pair(&plan[..n], &first[..m], &second[..k], &mut out).unwrap();
    rt.stdout().write_all(&out[..bytes])
}
