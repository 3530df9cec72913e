// Reads the expression at a place: per record 1, 5, 2, 4; then its operands, left to right.
ghost use Rattle.std.specs.Prelude.{◌≡◌, get_or};
ghost use Rattle.plan_table.specs.Results.{number_by};
ghost use Rattle.script_records.specs.Kinds.{byte_of};
ghost use Rattle.script.specs.Reading.{BodyPre, BodyPost, HeadKind, HeadPost, ExpressionPre, ExpressionPost, parsed_by};

use plan_table::{Reason, Table};
use script_records::kinds::Kind;
use script_records::pick::Relation;
use script_records::step::Step;

// The fields of the record at the front are in range, its variable is bound.
#[tactic(auto, unfolding(model::specs::Script::script_kinds))]
fn body_fits(kind: Kind, s: &[u8], bound: usize) -> bool
    requires body_pre { BodyPre s.now }
    requires kind { byte_of kind ≡ get_or s.now 0 0 }
    ensures { BodyPost s.now bound result }
{
    match kind {
        Kind::Document => usize::from(s[1]) < Table::DOCUMENTS,
        Kind::Variable => usize::from(s[1]) < bound,
        Kind::Step => Step::read(&s[1..]).is_ok(),
        Kind::NewElement => 1 <= s[1],
        Kind::Pick => Relation::try_from(s[1]).is_ok(),
        Kind::Nil | Kind::Join | Kind::Let | Kind::For | Kind::If => true,
        Kind::NewLeaf | Kind::Delete | Kind::Insert => true,
    }
}

// The kind of the record at the front, or why it is refused.
fn head(s: &[u8], left: usize, records: usize, bound: usize) -> Result<Kind, Reason>
    ensures refusal { HeadPost s.now left records bound (number_by result) }
    ensures kind { HeadKind s.now result }
{
    if s.len() == 0 {
        return Err(Reason::Short);
    }
    let kind = Kind::try_from(s[0])?;
    if Table::SCRIPT_RECORDS <= records {
        return Err(Reason::Size);
    }
    if left == 0 {
        return Err(Reason::Size);
    }
    if kind.is_binder() & (Table::BINDERS <= bound) {
        return Err(Reason::Size);
    }
    if s.len() < 1 + kind.body_size() {
        return Err(Reason::Short);
    }
    if body_fits(kind, s, bound) {
        return Ok(kind);
    }
    Err(Reason::Field)
}

// Where a script is read on, and the records before that place.
#[derive(Clone, Copy)]
pub struct Parsed {
    pub place: usize,
    pub records: usize,
}

// Reads the expression at the place in `parsed`, which takes the place past it and the records so far, its own with them; refused, the
// refusal's place. `left` is how deep it may be. The reason alone is answered, and the last operand's result is the expression's own: that
// takes three quarters of the time that a `Result<Parsed, Refusal>` took (measured: 15 ifs with empty operands).
pub fn expression(
    bytes: &[u8],
    left: usize,
    bound: usize,
    parsed: &mut Parsed,
) -> Result<(), Reason>
    requires { ExpressionPre bytes.now parsed.old.place left }
    ensures { ExpressionPost bytes.now parsed.old.place left parsed.old.records bound (parsed_by result parsed.new) }
{
    let kind = head(&bytes[parsed.place..], left, parsed.records, bound)?;
    let (body, operands) = kind.sizes();
    parsed.place += 1 + body;
    parsed.records += 1;
    if operands == 0 {
        return Ok(());
    }
    let left = left - 1;
    if operands == 1 {
        return expression(bytes, left, bound, parsed);
    }
    expression(bytes, left, bound, parsed)?;
    let inside = kind.inner(bound);
    if operands == 2 {
        return expression(bytes, left, inside, parsed);
    }
    expression(bytes, left, inside, parsed)?;
    expression(bytes, left, bound, parsed)
}
