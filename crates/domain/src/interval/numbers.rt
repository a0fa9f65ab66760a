ghost use Rattle.std.specs.Prelude.{◌≡◌, ◌↔◌, ℤ, IsTrue};
ghost use Rattle.std.specs.List.{Contains};
ghost use Rattle.std.specs.List.Sorted.{IsSorted};
ghost use Rattle.std.specs.Ordering.{int_cmp};
ghost use Rattle.domain.specs.Interval.{Interval as Range, HasMember, Includes};
ghost use Rattle.domain.specs.Numbers.{hull, is_covered, IsFirstOther};

use crate::{Domain, Interval};

impl Interval {
    /// The least range that has each of some numbers: the empty range where there are none.
    pub fn hull(numbers: &[i32]) -> Interval
        ensures ends { result ≡ hull numbers.now }
        ensures members { (z : ℤ) → Contains numbers.now z → HasMember result z }
        ensures least { (c : Range) → ((z : ℤ) → Contains numbers.now z → HasMember c z) → Includes c result }
    {
        let mut hull = Interval::EMPTY;
        for number in numbers {
            hull = hull.join(&Interval::between(*number, *number));
        }
        hull
    }

    /// Whether each number of the range is one of some ascending numbers, as the value of the index of a case statement
    /// has to be one of its constants (ISO 7185:1990, 6.8.3.5).
    pub fn is_covered(&self, numbers: &[i32]) -> bool
        requires { IsSorted int_cmp numbers.now }
        ensures answer { result ≡ is_covered self.now numbers.now }
        ensures members { IsTrue result ↔ ((z : ℤ) → HasMember self.now z → Contains numbers.now z) }
    {
        self.last() < first_other(self.first(), numbers)
    }
}

/// The first number from a first one on that is none of some ascending numbers.
fn first_other(first: i64, numbers: &[i32]) -> i64
    requires { IsSorted int_cmp numbers.now }
    ensures { IsFirstOther first numbers.now result }
{
    let mut other = first;
    for number in numbers {
        if i64::from(*number) == other {
            other += 1;
        }
    }
    other
}
