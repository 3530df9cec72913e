// The tally that follows a run: rows made, links cut, records written. The form is document 01's, a struct "lent by &mut, raised by few
// thin functions over covered ones; first by value": so both pairs stay, `raise_` over `count_`. Made and cut have two methods each, as
// they differ in the field that they raise, and a parameter that says which is no plainer.
ghost use Rattle.std.specs.Prelude.{◌≡◌};
ghost use Rattle.run_updates.specs.Tallying.{none_yet, HasRoom, plus_made, plus_cut};

#[derive(Clone, Copy, Default)]
pub struct Tally {
    pub made: usize,
    pub cut: usize,
    pub records: usize,
}

impl Tally {
    // Nothing is written yet.
    pub fn none() -> Tally
        ensures { result ≡ none_yet }
    {
        Tally::default()
    }

    // The tally once a row is made, with its record.
    pub fn count_made(self) -> Tally
        requires { HasRoom self }
        ensures { result ≡ plus_made self }
    {
        Tally {
            made: self.made + 1,
            records: self.records + 1,
            ..self
        }
    }

    // The tally once a link is cut, with its record.
    pub fn count_cut(self) -> Tally
        requires { HasRoom self }
        ensures { result ≡ plus_cut self }
    {
        Tally {
            cut: self.cut + 1,
            records: self.records + 1,
            ..self
        }
    }

    // Raises the tally by a row made.
    pub(crate) fn raise_made(&mut self)
        requires { HasRoom self.old }
        ensures { self.new ≡ plus_made self.old }
    {
        *self = self.count_made();
    }

    // Raises the tally by a link cut.
    pub(crate) fn raise_cut(&mut self)
        requires { HasRoom self.old }
        ensures { self.new ≡ plus_cut self.old }
    {
        *self = self.count_cut();
    }
}
