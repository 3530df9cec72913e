// Which rows the documents mark.
ghost use Rattle.std.specs.Prelude.{◌≡◌, map, ◌<◌};
ghost use Rattle.model.specs.Base.{any};
ghost use Rattle.model.specs.Stored.{no_parent};
ghost use Rattle.model.specs.Table.{is_the};
ghost use Rattle.plan_table.specs.Packed.{of_link};

use crate::RowNumber;

// Some document marks the row.
pub fn is_marked(marks: &[u16], row: RowNumber) -> bool
    requires { row.0 < no_parent }
    ensures { result ≡ any (is_the row.0) (map of_link marks.now) }
{
    let link = (row.0 + 1) as u16;
    marks.contains(&link)
}
