// The index of children: the rows with one link, found without a pass over all rows. A run makes it once; rows made later are not in it,
// and of links cut later it knows nothing.
ghost use Rattle.std.specs.Prelude.{◌≡◌, ◌<◌, length, get_or};
ghost use Rattle.model.specs.Limits.{max_rows, max_links};
ghost use Rattle.plan_table.specs.Packed.{link_in};
ghost use Rattle.run_query.specs.Index.{index_size, entered, IndexOf, BuildPre};

use plan_table::{RowNumber, Table, packed};

// For each link the first row with it, and behind them for each row the next one with the same link; where there is none, the count. No
// row asks for link 0: there the count stands. An index of no rows can be that one number.
pub const SIZE: usize = Table::LINKS + Table::ROWS;

// Where the count is.
pub const COUNT: usize = 0;

// From here on, by a row's number, the next row with its link.
pub const NEXT: usize = Table::LINKS;

// Enters a row below all that are in the index: it is now the first with its link.
fn enter(rows: &[u32], row: RowNumber, index: &mut [u16])
    requires row_in_bounds { row.0 < length rows.now }
    requires row_lt_max_rows { row.0 < max_rows }
    requires index_len { length index.old ≡ index_size }
    requires row_bound { link_in (get_or rows.now row.0 0) < max_links }
    ensures { index.new ≡ entered rows.now row.0 index.old }
{
    let j = row.0;
    let link = packed::link(rows[j]).0;
    index[NEXT + j] = index[link];
    index[link] = j as u16;
}

// The index of the rows of a table, in an area of its size: no link has a row yet, and the rows are entered from the highest down.
pub fn build(rows: &[u32], count: usize, index: &mut [u16])
    requires { BuildPre rows.now count index.old }
    ensures { IndexOf index.new count rows.now }
{
    let n = count as u16;
    index[..NEXT].fill(n);
    for j in (0..count).rev() {
        enter(rows, RowNumber(j), index);
    }
    index[COUNT] = n;
}
