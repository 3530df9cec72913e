// The areas lent to the C call for a run: whether each is long enough, and what they hold when the plan is refused or the run is over.
ghost use Rattle.std.specs.Prelude.{◌≡◌, ◌≤◌, length, replicate};
ghost use Rattle.c_codes.specs.Codes.{code_of};
ghost use Rattle.model.specs.Base.{at_front};
ghost use Rattle.run.specs.Calls.{ended_by};
ghost use Rattle.c_lent.specs.Done.{done_need, lent_fit, EndPre, left_in, end_values, end_out, end_done};

use c_codes::answer;
use c_codes::answer::Whose;
use plan_table::{Refusal, Table};
use plan_writer::write;
use run::lengths;
use run::lent::Ended;

// The numbers that done needs.
pub const DONE: usize = 6;

// Each of the five areas is as long as its need.
pub fn fit(answer: usize, history: usize, work: usize, out: usize, done: usize) -> bool
    ensures { result ≡ lent_fit answer history work out done }
{
    lengths::fit(answer, history, work) & (out >= crate::OUT) & (done >= DONE)
}

// Six numbers over the front of done.
pub fn put_done(done: &mut [u64], numbers: [u64; DONE])
    requires { done_need ≤ length done.old }
    ensures { done.new ≡ at_front numbers done.old }
{
    done[..DONE].copy_from_slice(&numbers);
}

// The plan is refused, so nothing runs: the areas of the run are zero.
pub fn clear(answer: &mut [u16], history: &mut [u8], work: &mut [u16])
    ensures answer_after { answer.new ≡ replicate (length answer.old) 0 }
    ensures history_after { history.new ≡ replicate (length history.old) 0 }
    ensures work_after { work.new ≡ replicate (length work.old) 0 }
{
    answer.fill(0);
    history.fill(0);
    work.fill(0);
}

// The run is over: refused, out stays and done is zero; else the plan as it then is stands in out, and done has its six numbers.
pub fn end(ended: Result<Ended, Refusal>, table: &Table, out: &mut [u8], done: &mut [u64]) -> u64
    requires { EndPre (ended_by ended) table.now done.old }
    ensures value { result ≡
        code_of (end_values (left_in (ended_by ended) table.now) out.old) }
    ensures out_after { out.new ≡
        end_out (left_in (ended_by ended) table.now) out.old }
    ensures done_after { done.new ≡
        end_done (left_in (ended_by ended) table.now) out.old done.old }
{
    let ended = match ended {
        Ok(ended) => ended,
        Err(refusal) => {
            put_done(done, [0; DONE]);
            return answer::refused(Whose::Script, refusal);
        }
    };
    let (number, bytes) = match write::fitting(table, out) {
        Ok(bytes) => (0, bytes),
        Err(refusal) => (u8::from(refusal.reason), 0),
    };
    let tally = ended.tally;
    put_done(
        done,
        [
            ended.items as u64,
            tally.made as u64,
            tally.cut as u64,
            tally.records as u64,
            ended.bytes as u64,
            bytes as u64,
        ],
    );
    answer::code(number, Whose::Area as u8, 0)
}
