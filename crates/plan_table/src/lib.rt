// The plan table: its type with its limits, the check of a table handed in, the kinds and size of its stored records.
#![tactic(auto)]

ghost use Rattle.std.specs.Prelude.{◌≡◌};
ghost use Rattle.model.specs.Table.{empty};
ghost use Rattle.plan_table.specs.Packed.{encode};
ghost use Rattle.plan_table.specs.Refusals.{number_of, script_number, other_script};

pub mod fit;
pub mod links;
pub mod marks;
pub mod number;
pub mod packed;
pub mod stored;

// Three types, so that none stands for another: a row's number; an element's name; a link, which is a row's number plus one, or 0 for
// none.
#[derive(Clone, Copy, Debug, PartialEq, Eq)]
pub struct RowNumber(pub usize);

#[derive(Clone, Copy, Debug, PartialEq, Eq)]
pub struct NameNumber(pub u16);

#[derive(Clone, Copy, Debug, PartialEq, Eq)]
pub struct Link(pub usize);

// A plan: rows packed into numbers (packed.rt), zero past the count; a document's mark is its row's link.
#[derive(Clone, Copy)]
pub struct Table {
    pub count: usize,
    pub rows: [u32; Table::ROWS],
    pub marks: [u16; Table::DOCUMENTS],
}

impl Table {
    // The limits of document 01 that bound a table and the scripts run on it.
    pub const ROWS: usize = 512;

    pub const DOCUMENTS: usize = 8;

    pub const ITEMS: usize = 512;

    pub const DEPTH: usize = 16;

    pub const BINDERS: usize = 8;

    pub const SCRIPT_RECORDS: usize = 64;

    pub const HISTORY_RECORDS: usize = 2048;

    // Links to the rows, and to none.
    pub const LINKS: usize = Table::ROWS + 1;

    // The table without rows.
    pub fn empty() -> Table
        ensures { result ≡ encode empty }
    {
        Table {
            count: 0,
            rows: [0; Table::ROWS],
            marks: [0; Table::DOCUMENTS],
        }
    }
}

// Why something is refused, by document 01's numbers. 9 is retired, and its number is not used again.
#[derive(Clone, Copy, Debug, PartialEq, Eq)]
pub enum Reason {
    Kind = 1,
    Short = 2,
    Tail = 3,
    Field = 4,
    Size = 5,
    Link = 6,
    Target = 7,
    Items = 8,
    Table = 10,
    Lent = 11,
}

impl From<Reason> for u8 {
    ghost from_gives = { λ reason number. number ≡ number_of reason };

    // Its number.
    fn from(reason: Reason) -> u8 {
        reason as u8
    }
}

// A refusal: why, and at which place.
#[derive(Clone, Copy, Debug, PartialEq, Eq)]
pub struct Refusal {
    pub reason: Reason,
    pub place: usize,
}

// A call refused, with what it gives back all the same, such as the table that it was handed.
#[derive(Clone, Copy)]
pub struct Refused<T> {
    pub refusal: Refusal,
    pub left: T,
}

// One of two scripts, by document 01's numbers.
#[derive(Clone, Copy, Debug, PartialEq, Eq)]
pub enum Script {
    First = 1,
    Second = 2,
}

impl From<Script> for u8 {
    ghost from_gives = { λ script number. number ≡ script_number script };

    // Its number.
    fn from(script: Script) -> u8 {
        script as u8
    }
}

impl Script {
    // The other of the two.
    pub fn other(self) -> Script
        ensures { result ≡ other_script self }
    {
        match self {
            Script::First => Script::Second,
            Script::Second => Script::First,
        }
    }
}
