// The kinds of a script's records: their bytes, and for each the bytes of its body and its operands.
ghost use Rattle.std.specs.Prelude.{◌≡◌, true, ◌≤◌, ◌<◌};
ghost use Rattle.model.specs.Limits.{max_binders};
ghost use Rattle.model.specs.Script.{body_size, arity, is_binder};
ghost use Rattle.script_records.specs.Walk.{inner};
ghost use Rattle.script_records.specs.Kinds.{byte_of, KindRead};

use plan_table::Reason;

#[derive(Clone, Copy, Debug, PartialEq, Eq)]
pub enum Kind {
    Nil = 0x01,
    Document = 0x02,
    Variable = 0x03,
    Step = 0x04,
    Join = 0x05,
    Let = 0x06,
    For = 0x07,
    If = 0x08,
    NewElement = 0x09,
    NewLeaf = 0x0A,
    Delete = 0x0B,
    Insert = 0x0C,
    Pick = 0x0D,
}

impl TryFrom<u8> for Kind {
    type Error = Reason;

    ghost try_from_gives = { KindRead };

    // The kind that a byte is.
    fn try_from(byte: u8) -> Result<Kind, Reason> {
        match byte {
            0x01 => Ok(Kind::Nil),
            0x02 => Ok(Kind::Document),
            0x03 => Ok(Kind::Variable),
            0x04 => Ok(Kind::Step),
            0x05 => Ok(Kind::Join),
            0x06 => Ok(Kind::Let),
            0x07 => Ok(Kind::For),
            0x08 => Ok(Kind::If),
            0x09 => Ok(Kind::NewElement),
            0x0A => Ok(Kind::NewLeaf),
            0x0B => Ok(Kind::Delete),
            0x0C => Ok(Kind::Insert),
            0x0D => Ok(Kind::Pick),
            _ => Err(Reason::Kind),
        }
    }
}

impl Kind {
    // Bytes of a body, and operands of a record: one table, since who reads a script asks for both.
    #[tactic(auto, unfolding(model::specs::Script::script_kinds))]
    pub fn sizes(self) -> (usize, usize)
        ensures body { result.0 ≡ body_size (byte_of self) }
        ensures operands { result.1 ≡ arity (byte_of self) }
        ensures body_bound { result.0 < 4 }
        ensures operands_bound { result.1 < 4 }
    {
        match self {
            Kind::Nil => (0, 0),
            Kind::Document | Kind::Variable | Kind::NewElement | Kind::NewLeaf => (1, 0),
            Kind::Step => (3, 1),
            Kind::Delete => (0, 1),
            Kind::Pick => (2, 1),
            Kind::Join | Kind::Let | Kind::For | Kind::Insert => (0, 2),
            Kind::If => (0, 3),
        }
    }

    // Bytes of a body.
    pub fn body_size(self) -> usize
        ensures value { result ≡ body_size (byte_of self) }
        ensures upper_bound { result < 4 }
    {
        self.sizes().0
    }

    // Operands of a record.
    pub fn arity(self) -> usize
        ensures value { result ≡ arity (byte_of self) }
        ensures upper_bound { result < 4 }
    {
        self.sizes().1
    }

    // Let and for bind a variable in their second operand.
    pub fn is_binder(self) -> bool
        ensures { result ≡ is_binder (byte_of self) }
    {
        matches!(self, Kind::Let | Kind::For)
    }

    // Variables in scope in the second operand.
    pub fn inner(self, bound: usize) -> usize
        requires { is_binder (byte_of self) ≡ true → bound ≤ max_binders }
        ensures { result ≡ inner (byte_of self) bound }
    {
        if self.is_binder() {
            return bound + 1;
        }
        bound
    }
}
