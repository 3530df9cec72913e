// Walks a script in place.
ghost use Rattle.std.specs.Prelude.{◌≡◌};
ghost use Rattle.model.specs.Script.{body_size, arity};
ghost use Rattle.script_records.specs.Walk.{end_at};

use crate::kinds::Kind;

// The bytes of the body and the operands of a record with this byte; none of either where it is no kind.
fn sizes(byte: u8) -> (usize, usize)
    ensures { (result.0 ≡ body_size byte) × (result.1 ≡ arity byte) }
{
    match Kind::try_from(byte) {
        Ok(kind) => kind.sizes(),
        Err(_) => (0, 0),
    }
}

// The place past the expression at a place: the length where it is cut off, the place itself where nothing stands there.
pub fn end_at(bytes: &[u8], at: usize) -> usize
    ensures { result ≡ end_at bytes.now at }
{
    if bytes.len() <= at {
        return at;
    }
    let mut next = at;
    let mut pending = 1;
    while 0 < pending {
        let (body, operands) = sizes(bytes[next]);
        if bytes.len() - next - pending < body + operands {
            return bytes.len();
        }
        next += 1 + body;
        pending = pending - 1 + operands;
    }
    next
}
