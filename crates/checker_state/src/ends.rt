ghost use Rattle.std.specs.Prelude.{◌≡◌, ◌+ℤ◌, ◌-ℤ◌, ◌&&◌, ◌||◌, not, int_le, int_lt};
ghost use Rattle.checker_state.specs.State.{moved};
ghost use Rattle.checker_state.specs.Terms.{IsFar, IsShort};
ghost use Rattle.checker_state.specs.View.{AreEnds};

use domain::Interval;

/// The ends of a range of numbers; it is empty where the first is above the last.
#[derive(Clone, Copy)]
pub struct Ends {
    pub first: i64,
    pub last: i64,
}

impl Ends {
    /// Those of a single number.
    pub fn of(number: i64) -> Ends
        requires { IsShort number }
        ensures { AreEnds result (record { first = number; last = number }) }
    {
        Ends {
            first: number,
            last: number,
        }
    }

    /// Those of a range whose numbers are greater by a number.
    pub fn moved(range: Interval, number: i64) -> Ends
        requires { IsShort number }
        ensures { AreEnds result (moved number range) }
    {
        Ends {
            first: range.first() + number,
            last: range.last() + number,
        }
    }

    /// Whether neither range is empty, and each number of this is at most each of the other.
    pub fn is_below(self, other: Ends) -> bool
        ensures { result ≡ (not (int_lt self.last self.first || int_lt other.last other.first)
            && int_le self.last other.first) }
    {
        !(self.last < self.first || other.last < other.first) && self.last <= other.first
    }
}

/// The sum of two numbers, of which the first is far from the greatest and the least.
pub fn sum(left: i64, right: i32) -> i64
    requires { IsFar left }
    ensures { result ≡ left +ℤ right }
{
    left + i64::from(right)
}

/// The difference of two numbers, of which the first is far from the greatest and the least.
pub fn difference(left: i64, right: i32) -> i64
    requires { IsFar left }
    ensures { result ≡ left -ℤ right }
{
    left - i64::from(right)
}
