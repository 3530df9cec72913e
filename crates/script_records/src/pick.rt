// The relations in which a pick's leaves stand to its constant.
ghost use Rattle.script_records.specs.Relations.{RelationRead};

use plan_table::Reason;

#[derive(Clone, Copy, Debug, PartialEq, Eq)]
pub enum Relation {
    Equal = 0,
    Less = 1,
    Greater = 2,
}

impl TryFrom<u8> for Relation {
    type Error = Reason;

    ghost try_from_gives = { RelationRead };

    // The relation of a number.
    fn try_from(number: u8) -> Result<Relation, Reason> {
        match number {
            0 => Ok(Relation::Equal),
            1 => Ok(Relation::Less),
            2 => Ok(Relation::Greater),
            _ => Err(Reason::Field),
        }
    }
}
