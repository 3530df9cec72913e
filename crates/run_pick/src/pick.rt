// Pick keeps the leaves whose signed value stands in a relation to a constant. A leaf of −128 is not surveyed: it is equal to −128, and
// neither less nor greater than anything.
ghost use Rattle.std.specs.Prelude.{◌≡◌, ◌+◌, ◌<◌, ◌≤◌, if◌then◌else◌, nat_lt};
ghost use Rattle.model.specs.Step.{signed_key};
ghost use Rattle.script_records.specs.Relations.{relation_number};
ghost use Rattle.run_pick.specs.Picking.{leaf_ranks, rank_in, is_kept, KeepsRange, KeepsRelated, PickPre, PickPost};

use plan_table::{RowNumber, packed};
use run_query::step;
use script_records::pick::Relation;
use std::num;

// A value's rank among signed bytes.
fn signed_key(v: u32) -> u32
    requires { v < 256 }
    ensures value { result ≡ signed_key v }
    ensures upper_bound { result < 256 }
{
    if v < 128 { v + 128 } else { v - 128 }
}

// A pick tells its rows by their ranks, by one comparison and with no branch that depends on a row. Leaves come first, with ranks below
// this, by value and then by link.
const LEAF_RANKS: u32 = 1073741824;

// Ranks of each value: one for each link.
const RANKS_OF_VALUE: u32 = 1024;

// Ranks of the values below 128. With these and as many that follow exchanged, leaves stand in the order of signed values.
const HALF: u32 = 128 * RANKS_OF_VALUE;

// In that order −128 comes first, and the surveyed values from here on.
const SURVEYED: u32 = RANKS_OF_VALUE;

// A packed row's rank: by its kind, which stands in the two low bits and from which a leaf's is taken, and then by the bits above.
fn rank(w: u32) -> u32
    ensures { result ≡ rank_in w }
{
    let x = num::wrapping_sub_u32(w, packed::LEAF);
    x % 4 * LEAF_RANKS + x / 4
}

// Ranks that are kept: those that come to less than `many`, modulo 2^32, when `lower` is added to those below `half` and `upper` to the
// others.
#[derive(Clone, Copy)]
struct Ranks {
    half: u32,
    lower: u32,
    upper: u32,
    many: u32,
}

impl Ranks {
    // What is added to a rank.
    fn shift(self, r: u32) -> u32
        ensures { result ≡ (if nat_lt r self.half then self.lower else self.upper) }
    {
        if r < self.half {
            self.lower
        } else {
            self.upper
        }
    }

    // A packed row is picked: its rank is kept.
    fn picks(self, w: u32) -> bool
        ensures { result ≡ is_kept self.half self.lower self.upper self.many (rank_in w) }
    {
        let r = rank(w);
        num::wrapping_add_u32(r, self.shift(r)) < self.many
    }
}

// Ranks that lie in a range, from `low` to below `high`, once the halves of a size are exchanged, or as they are where it is 0.
fn between(half: u32, low: u32, high: u32) -> Ranks
    requires high_bound { half + high ≤ leaf_ranks }
    requires low_le_high { low ≤ high }
    ensures { KeepsRange half low high result.half result.lower result.upper result.many }
{
    let lower = num::wrapping_sub_u32(half, low);
    let upper = num::wrapping_sub_u32(0, half + low);
    Ranks {
        half,
        lower,
        upper,
        many: high - low,
    }
}

// The ranks of the leaves whose value stands in the relation to the constant.
fn related(relation: Relation, constant: u8) -> Ranks
    ensures { KeepsRelated (relation_number relation) constant result.half result.lower result.upper result.many }
{
    let c = u32::from(constant);
    let k = signed_key(c);
    let past = k + 1;
    match relation {
        Relation::Equal => between(0, RANKS_OF_VALUE * c, RANKS_OF_VALUE * (c + 1)),
        // the constant is −128, and nothing is less
        Relation::Less if k == 0 => between(HALF, SURVEYED, SURVEYED),
        Relation::Less => between(HALF, SURVEYED, RANKS_OF_VALUE * k),
        Relation::Greater => between(HALF, RANKS_OF_VALUE * past, LEAF_RANKS - HALF),
    }
}

// Picks from the value at a place, which the kept items then take; the place past them.
pub fn picked(
    rows: &[u32],
    relation: Relation,
    constant: u8,
    work: &mut [u16],
    from: usize,
    to: usize,
) -> usize
    requires { PickPre rows.now work.old from to }
    ensures { PickPost rows.now (relation_number relation) constant work.old from to work.new result }
{
    let ranks = related(relation, constant);
    let mut at = from;
    for k in from..to {
        let row = usize::from(work[k]);
        let keep = ranks.picks(rows[row]);
        at = step::append_if(keep, RowNumber(row), work, at);
    }
    at
}
