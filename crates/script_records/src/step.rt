// The steps of a script: each an axis, and a test that the rows which it leads to must pass.
ghost use Rattle.std.specs.Prelude.{◌≡◌, ◌+◌, ◌≤◌, length};
ghost use Rattle.model.specs.Meeting.{admits_element, admits_leaf, is_named, is_deep, share_element};
ghost use Rattle.model.specs.Paths.{is_up};
ghost use Rattle.model.specs.Step.{admits, letter_of};
ghost use Rattle.plan_table.specs.Packed.{row_of};
ghost use Rattle.script_records.specs.Steps.{step_of, test_of, test_name, AxisRead, TestRead, StepRead};

use plan_table::{NameNumber, Reason, number, packed};

#[derive(Clone, Copy, Debug, PartialEq, Eq)]
pub enum Axis {
    Child = 0,
    Descendant = 1,
    Parent = 2,
    Ancestor = 3,
}

impl TryFrom<u8> for Axis {
    type Error = Reason;

    ghost try_from_gives = { AxisRead };

    // The axis of a number.
    fn try_from(number: u8) -> Result<Axis, Reason> {
        match number {
            0 => Ok(Axis::Child),
            1 => Ok(Axis::Descendant),
            2 => Ok(Axis::Parent),
            3 => Ok(Axis::Ancestor),
            _ => Err(Reason::Field),
        }
    }
}

// Any node, any element, any leaf, or the elements of a name.
#[derive(Clone, Copy, Debug, PartialEq, Eq)]
pub enum Test {
    Node,
    Element,
    Leaf,
    Named(NameNumber),
}

impl Test {
    // The test of a number, and of the name in the field behind it: 0 unless the test is for one.
    pub fn read(number: u8, field: u8) -> Result<Test, Reason>
        ensures { TestRead number field result }
    {
        match (number, field) {
            (0, 0) => Ok(Test::Node),
            (1, 0) => Ok(Test::Element),
            (2, 0) => Ok(Test::Leaf),
            (3, 1..) => Ok(Test::Named(number::name(field))),
            _ => Err(Reason::Field),
        }
    }

    // Its name, 0 where it has none.
    pub fn name(self) -> NameNumber
        ensures { result.0 ≡ test_name self }
    {
        match self {
            Test::Node | Test::Element | Test::Leaf => NameNumber(0),
            Test::Named(name) => name,
        }
    }

    // A packed row passes. One arm asks whether it is a leaf: with that asked in each, steps from one item took a quarter longer.
    pub fn admits(self, w: u32) -> bool
        ensures { result ≡ admits (test_of self) (letter_of (row_of w)) }
    {
        match self {
            Test::Node => true,
            _ if packed::kind(w) == packed::LEAF => matches!(self, Test::Leaf),
            Test::Element => true,
            Test::Leaf => false,
            Test::Named(name) => packed::tag(w) == u32::from(name.0),
        }
    }
}

#[derive(Clone, Copy, Debug, PartialEq, Eq)]
pub struct Step {
    pub axis: Axis,
    pub test: Test,
}

impl Step {
    // The step of three fields: the axis, the test and the name.
    pub fn read(fields: &[u8]) -> Result<Step, Reason>
        requires { 3 ≤ length fields.now }
        ensures { StepRead fields.now result }
    {
        let axis = Axis::try_from(fields[0])?;
        let test = Test::read(fields[1], fields[2])?;
        Ok(Step { axis, test })
    }

    // Some element passes the test.
    pub fn admits_element(self) -> bool
        ensures { result ≡ admits_element (step_of self) }
    {
        !matches!(self.test, Test::Leaf)
    }

    // Some leaf passes the test.
    pub fn admits_leaf(self) -> bool
        ensures { result ≡ admits_leaf (step_of self) }
    {
        matches!(self.test, Test::Node | Test::Leaf)
    }

    // The test is for the named element.
    pub fn is_named(self) -> bool
        ensures { result ≡ is_named (step_of self) }
    {
        matches!(self.test, Test::Named(_))
    }

    // A descendant step.
    pub fn is_deep(self) -> bool
        ensures { result ≡ is_deep (step_of self) }
    {
        matches!(self.axis, Axis::Descendant)
    }

    // A step that leads up.
    pub fn is_up(self) -> bool
        ensures { result ≡ is_up (step_of self) }
    {
        matches!(self.axis, Axis::Parent | Axis::Ancestor)
    }

    // Some element passes both tests.
    pub fn shares_element(self, other: Step) -> bool
        ensures { result ≡ share_element (step_of self) (step_of other) }
    {
        match (self.test, other.test) {
            (Test::Named(name), Test::Named(of_other)) => name == of_other,
            _ => self.admits_element() & other.admits_element(),
        }
    }
}
