// Drops each row that is neither marked nor below a marked row, and renumbers the others in rising order.
// A row's entry among the numbers stands at its link: first 1 where it is marked, then its new number plus one where it is kept, else 0.
ghost use Rattle.std.specs.Prelude.{◌≡◌, true, cond, ◌<◌, eqb, length, set};
ghost use Rattle.model.specs.Sweep.{swept};
ghost use Rattle.plan_sweep.specs.Sweeping.{FlagPre, Flagged, keeps, RowPre, RowPost, RowsPre, Sweeping, LinksPre, new_links};
ghost use Rattle.plan_table.specs.Packed.{decode, decode_parts, encode, fits};

use plan_table::{Link, RowNumber, Table, packed};

// Flags the row with this link, if there is one.
fn flag_one(numbers: &mut [u16], link: Link)
    requires { link.0 < length numbers.old }
    ensures { numbers.new ≡ cond (eqb link.0 0) numbers.old (set numbers.old link.0 1) }
{
    let at = link.0;
    if at == 0 {
        return;
    }
    numbers[at] = 1;
}

// Flags the marked rows.
fn flag(numbers: &mut [u16], marks: &[u16])
    requires { FlagPre numbers.old marks.now }
    ensures { Flagged marks.now numbers.new }
{
    for m in marks {
        flag_one(numbers, Link(usize::from(*m)));
    }
}

// A row is kept: it is marked, or its parent is kept and has a new link.
fn is_kept(flag: u16, parent: Link) -> bool
    ensures { result ≡ keeps flag parent.0 }
{
    if flag != 0 {
        return true;
    }
    parent.row().is_some()
}

// One row, after `next` that are kept: kept, it is the next of them. How many are kept then.
fn row(w: u32, row: RowNumber, next: usize, numbers: &mut [u16], out: &mut [u32]) -> usize
    requires { RowPre w row.0 next numbers.old out.old }
    ensures { RowPost w row.0 next numbers.old out.old numbers.new out.new result }
{
    let old = packed::link(w).0;
    let parent = Link(usize::from(numbers[old]));
    let i = row.0;
    if !is_kept(numbers[i + 1], parent) {
        return next;
    }
    numbers[i + 1] = (next + 1) as u16;
    out[next] = packed::relinked(w, parent);
    next + 1
}

// Every row below the count; how many are kept.
fn rows<'a>(
    rows: &'a [u32],
    marks: &'a [u16],
    count: usize,
    numbers: &mut [u16],
    out: &mut [u32],
) -> usize
    requires { RowsPre rows.now marks.now count numbers.old out.old }
    ensures { Sweeping (decode_parts count rows.now marks.now) count result
        numbers.new out.new }
{
    flag(numbers, marks);
    let mut next = 0;
    for i in 0..count {
        next = row(rows[i], RowNumber(i), next, numbers, out);
    }
    next
}

// The marks' links, renumbered.
fn renumber(marks: &mut [u16], numbers: &[u16])
    requires { LinksPre numbers.now marks.old }
    ensures { marks.new ≡ new_links numbers.now marks.old }
{
    for m in marks.iter_mut() {
        *m = numbers[usize::from(*m)];
    }
}

// A table that fits, swept.
pub fn fitting(table: &Table) -> Table
    requires { fits table.now ≡ true }
    ensures { result ≡ encode (swept (decode table.now)) }
{
    let mut numbers = [0u16; Table::LINKS];
    let mut swept = Table {
        count: 0,
        rows: [0; Table::ROWS],
        marks: table.marks,
    };
    swept.count = rows(
        &table.rows,
        &table.marks,
        table.count,
        &mut numbers,
        &mut swept.rows,
    );
    renumber(&mut swept.marks, &numbers);
    swept
}
