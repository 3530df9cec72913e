// The lengths of the areas lent to a run.
ghost use Rattle.std.specs.Prelude.{◌≡◌};
ghost use Rattle.model.specs.Call.{lengths_fit};

// Each area is as long as its need.
pub fn fit(answer: usize, history: usize, work: usize) -> bool
    ensures { result ≡ lengths_fit answer history work }
{
    (answer >= crate::ANSWER) & (history >= crate::HISTORY) & (work >= crate::WORK)
}
