// The lines of `pair`. Each ends with 0x0A.
ghost use Rattle.plan_table.specs.Refusals.{refusal_in};
ghost use Rattle.pair_orders.specs.Orders.{order_told};
ghost use Rattle.pair_lines.specs.Lines.{FileLine, AnswerLine, OrderLine, NamePre};

use pair_orders::orders::{Ended, Refused};
use pair_text::{number, text};
use plan_table::Refusal;

// A refused file: its name, number and place. The only line, at the start of the area.
pub fn put_file(out: &mut [u8], name: &[u8], refusal: Refusal) -> usize
    requires { NamePre out.old 0 name.now }
    ensures { FileLine out.old name.now (refusal_in refusal) out.new result }
{
    let n = text::put(out, 0, b"file ");
    let m = text::put(out, n, name);
    let k = number::put_field(out, m, usize::from(u8::from(refusal.reason)));
    let j = number::put_field(out, k, refusal.place);
    text::put(out, j, b"\n")
}

// The answer's line.
pub fn put_answer(out: &mut [u8], answer: &[u8]) -> usize
    requires { NamePre out.old 0 answer.now }
    ensures { AnswerLine out.old answer.now out.new result }
{
    let n = text::put(out, 0, b"answer ");
    let m = text::put(out, n, answer);
    text::put(out, m, b"\n")
}

// How an order ended.
pub fn put_order(out: &mut [u8], at: usize, name: &[u8], order: Result<Ended, Refused>) -> usize
    requires { NamePre out.old at name.now }
    ensures { OrderLine out.old at name.now (order_told order) out.new result }
{
    let n = text::put(out, at, name);
    match order {
        Ok(ended) => {
            let m = number::put_field(out, n, ended.first);
            let k = number::put_field(out, m, ended.second);
            let j = number::put_field(out, k, ended.rows);
            text::put(out, j, b"\n")
        }
        Err(refused) => {
            let m = text::put(out, n, b" refused");
            let k = number::put_field(out, m, usize::from(u8::from(refused.script)));
            let j = number::put_field(out, k, usize::from(u8::from(refused.reason)));
            text::put(out, j, b"\n")
        }
    }
}
