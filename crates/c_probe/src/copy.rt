// Packed rows to a table and back. C hands in count, rows and marks one by one, so here they stay three.
ghost use Rattle.std.specs.Prelude.{◌≡◌};
ghost use Rattle.plan_table.specs.Fitting.{TableSizes};
ghost use Rattle.plan_table.specs.Packed.{table_of};

use plan_table::Table;

// The table of 512 packed rows and 8 marks.
pub fn table_of(count: usize, rows: &[u32], marks: &[u16]) -> Table
    requires { TableSizes rows.now marks.now }
    ensures { result ≡ table_of count rows.now marks.now }
{
    let mut packed = [0u32; Table::ROWS];
    packed.copy_from_slice(rows);
    let mut links = [0u16; Table::DOCUMENTS];
    links.copy_from_slice(marks);
    Table {
        count,
        rows: packed,
        marks: links,
    }
}

// A table's packed rows and marks over slices of 512 and 8.
pub fn put_table(table: Table, rows: &mut [u32], marks: &mut [u16])
    requires { TableSizes rows.old marks.old }
    ensures rows_after { rows.new ≡ table.rows }
    ensures marks_after { marks.new ≡ table.marks }
{
    rows.copy_from_slice(&table.rows);
    marks.copy_from_slice(&table.marks);
}
