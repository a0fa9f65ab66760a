ghost use Rattle.std.specs.Prelude.{◌≡◌, ℕ, IfOk, None};
ghost use Rattle.checker_calls.specs.ExitView.{HasRange, range_at};

use domain::Interval;
use std::alloc::{AllocError, Global};
use std::collections::HashMap;

/// Ranges by numbers.
#[derive(Drop)]
pub(crate) struct Ranges {
    by_number: HashMap<usize, Interval>,
}

impl Ranges {
    /// None yet.
    pub(crate) fn new(alloc: Global) -> Ranges
        ensures { (number : ℕ) → range_at result number ≡ None }
    {
        Ranges {
            by_number: HashMap::new(alloc),
        }
    }

    /// That of a number, if there is one.
    pub(crate) fn at(&self, number: usize) -> Option<Interval>
        ensures { result ≡ range_at self.now number }
    {
        self.by_number.get(&number).copied()
    }

    /// A number has a range from here on.
    pub(crate) fn set(&mut self, number: usize, range: Interval) -> Result<(), AllocError>
        ensures { IfOk result (λ _. HasRange number range self.old self.new) }
    {
        self.by_number.insert(number, range)?;
        Ok(())
    }
}
