// Links told as rows, and made of them.
ghost use Rattle.std.specs.Prelude.{◌≡◌, ◌≤◌};
ghost use Rattle.model.specs.Stored.{no_parent};
ghost use Rattle.plan_table.specs.Links.{row_by};
ghost use Rattle.plan_table.specs.Packed.{of_link, link_of};

use crate::{Link, RowNumber};

// A link stays a number, as packed rows and marks hold it; row and to tell it as a row or none.
impl Link {
    // The row, if there is one.
    pub fn row(self) -> Option<RowNumber>
        ensures { row_by result ≡ of_link self.0 }
    {
        if self.0 == 0 {
            return None;
        }
        Some(RowNumber(self.0 - 1))
    }

    // The link to a row, or to none.
    pub fn to(row: Option<RowNumber>) -> Link
        requires { link_of (row_by row) ≤ no_parent }
        ensures { result.0 ≡ link_of (row_by row) }
    {
        match row {
            None => Link(0),
            Some(row) => Link(row.0 + 1),
        }
    }
}
