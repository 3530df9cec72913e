// The report of the program `pair`: two scripts analysed and run in both orders on a plan, as lines of text.
#![tactic(auto)]

ghost use Rattle.std.specs.Prelude.{◌≡◌, true, ◌≤◌, length};
ghost use Rattle.plan_table.specs.Packed.{fits};
ghost use Rattle.plan_table.specs.Results.{bytes_by};
ghost use Rattle.paths.specs.Analysis.{analysis_by};
ghost use Rattle.pair_report.specs.Pair.{room, three_lines, text_by, Report, Counted, pair_written, pair_out};

use pair_lines::line;
use pair_orders::orders;
use paths::{Answer, ScriptRefused};
use plan_table::{Reason, Refusal, Script, Table};

// The bytes that the lines take at most.
pub const ROOM: usize = 160;

// The answer and both orders, each from the table given, which fits.
fn three_lines(out: &mut [u8], answer: &[u8], table: Table, first: &[u8], second: &[u8]) -> usize
    requires { (room ≤ length out.old) × (length answer.now ≤ 7) × (fits table ≡ true) }
    ensures { Report (three_lines table answer.now first.now second.now)
        out.old out.new result }
{
    let n = line::put_answer(out, answer);
    let one_two = orders::in_order(table, first, second);
    let m = line::put_order(out, n, b"one-two", one_two);
    let two_one = orders::in_order(table, second, first);
    line::put_order(out, m, b"two-one", orders::swapped(two_one))
}

// The lines once a plan is read, whose table fits: of a refused script the only one, else the answer and both orders.
fn answer_lines(
    out: &mut [u8],
    analysis: Result<Answer, ScriptRefused>,
    table: Table,
    first: &[u8],
    second: &[u8],
) -> usize
    requires { (room ≤ length out.old) × (fits table ≡ true) }
    ensures { Report (text_by (analysis_by analysis) table first.now second.now)
        out.old out.new result }
{
    match analysis {
        Ok(Answer::Free) => three_lines(out, b"free", table, first, second),
        Ok(Answer::Upward) => three_lines(out, b"upward", table, first, second),
        Ok(Answer::Meet) => three_lines(out, b"meet", table, first, second),
        Err(refused) => match refused.script {
            Script::First => line::put_file(out, b"first", refused.refusal),
            Script::Second => line::put_file(out, b"second", refused.refusal),
        },
    }
}

// Writes the lines for a plan and two scripts to the start of out, which needs 160 bytes; the rest of it stays.
pub fn pair(plan: &[u8], first: &[u8], second: &[u8], out: &mut [u8]) -> Result<usize, Refusal>
    ensures value { bytes_by result ≡ pair_written plan.now first.now second.now out.old }
    ensures out_after { out.new ≡ pair_out plan.now first.now second.now out.old }
    ensures counted { Counted (bytes_by result).bytes out.new }
{
    if out.len() < ROOM {
        return Err(Refusal {
            reason: Reason::Lent,
            place: 0,
        });
    }
    match plan::read_plan(plan) {
        Ok(table) => {
            let analysis = paths::analyse(first, second);
            Ok(answer_lines(out, analysis, table, first, second))
        }
        Err(refused) => Ok(line::put_file(out, b"plan", refused.refusal)),
    }
}
