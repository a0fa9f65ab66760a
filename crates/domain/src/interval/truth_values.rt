ghost use Rattle.std.specs.Prelude.{◌≡◌, not, ◌&&◌, ◌||◌, ℤ};
ghost use Rattle.domain.specs.Interval.{HasMember, truth, is_true, always_true, never_true, truths, both, either};
ghost use Rattle.domain.specs.Interval.{complement};

use crate::{Domain, Interval};

impl Interval {
    /// What and gives for the truth values of a number of each range: 0 is false, any other number true
    /// (ISO 7185:1990, 6.7.2.3).
    pub fn both(&self, other: &Interval) -> Interval
        ensures ends { result ≡ both self.now other.now }
        ensures members { (x y : ℤ) → HasMember self.now x → HasMember other.now y
            → HasMember result (truth (is_true x && is_true y)) }
    {
        if self.is_empty() || other.is_empty() {
            return Interval::EMPTY;
        }
        Interval::truths(
            self.is_always_true() && other.is_always_true(),
            !(self.is_never_true() || other.is_never_true()),
        )
    }

    /// What or gives for the truth values of a number of each range: 0 is false, any other number true
    /// (ISO 7185:1990, 6.7.2.3).
    pub fn either(&self, other: &Interval) -> Interval
        ensures ends { result ≡ either self.now other.now }
        ensures members { (x y : ℤ) → HasMember self.now x → HasMember other.now y
            → HasMember result (truth (is_true x || is_true y)) }
    {
        if self.is_empty() || other.is_empty() {
            return Interval::EMPTY;
        }
        Interval::truths(
            self.is_always_true() || other.is_always_true(),
            !(self.is_never_true() && other.is_never_true()),
        )
    }

    /// What not gives for the truth value of a number of the range: 0 is false, any other number true
    /// (ISO 7185:1990, 6.7.2.3).
    pub fn complement(&self) -> Interval
        ensures ends { result ≡ complement self.now }
        ensures members { (x : ℤ) → HasMember self.now x → HasMember result (truth (not (is_true x))) }
    {
        if self.is_empty() {
            return Interval::EMPTY;
        }
        Interval::truths(self.is_never_true(), !self.is_always_true())
    }

    /// Whether no number of the range is false.
    fn is_always_true(&self) -> bool
        ensures { result ≡ always_true self.now }
    {
        !self.has(0)
    }

    /// Whether no number but 0 lies in the range.
    fn is_never_true(&self) -> bool
        ensures { result ≡ never_true self.now }
    {
        self.first() == 0 && self.last() == 0
    }

    /// The range of truth values from a first to a last one.
    fn truths(first: bool, last: bool) -> Interval
        ensures { result ≡ truths first last }
    {
        Interval {
            first: i64::from(first),
            last: i64::from(last),
        }
    }
}
