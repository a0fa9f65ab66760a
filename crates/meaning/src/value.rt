ghost use Rattle.std.specs.Prelude.{◌≡◌, ◌≢◌, ◌+ℤ◌, ◌-ℤ◌, ◌*ℤ◌, ◌<ℤ◌, ◌≤ℤ◌, ℤ, pos, neg_ℤ, int_div, int_le, int_lt};
ghost use Rattle.std.specs.Prelude.{if◌then◌else◌, Option};
ghost use Rattle.std.specs.Int.{int_rem_euclid};
ghost use Rattle.std.specs.Ordering.{int_eq};
ghost use Rattle.meaning.specs.Integers.{byte_of, integer_or_none, is_integer_number, is_odd, is_true, is_within};
ghost use Rattle.meaning.specs.Integers.{magnitude, truth};

use std::marker::Model;

/// A value: an ordinal by its number, or a set by the number whose bits tell its members, from 0 to 127.
#[derive(Clone, Copy)]
pub enum Value {
    Number(Ordinal),
    Members(u128),
}

/// The number of an ordinal, or of one whose sign was changed: -2147483648 to 2147483648.
#[derive(Clone, Copy)]
pub struct Ordinal {
    number: i64,
}

impl Model for Ordinal {
    ghost Value = { ℤ };

    ghost view = { λ o. o.number };

    ghost invariant = { λ o. (neg_ℤ (pos 2147483648) ≤ℤ o.number) × (o.number ≤ℤ pos 2147483648) };

    ghost inverse = { λ n. record { number = n } };
}

impl Ordinal {
    /// The ordinal of a number.
    pub fn new(number: i32) -> Ordinal
        ensures { result ≡ number }
    {
        Ordinal {
            number: i64::from(number),
        }
    }

    /// Its number.
    pub fn number(self) -> i64
        ensures { result ≡ self }
    {
        self.number
    }

    /// The ordinal with the other sign.
    pub fn negated(self) -> Ordinal
        ensures { result ≡ neg_ℤ self }
    {
        Ordinal {
            number: -self.number,
        }
    }

    /// Whether it is of type integer: -2147483647 to 2147483647 (ISO 7185:1990, 6.4.2.2).
    pub fn is_integer(self) -> bool
        ensures { result ≡ is_integer_number self }
    {
        -2_147_483_647 <= self.number && self.number <= 2_147_483_647
    }

    /// The byte of its lowest 8 bits.
    pub fn byte(self) -> u8
        ensures { result ≡ byte_of self }
    {
        u8::try_from(self.number.rem_euclid(256)).unwrap_or(0)
    }

    /// The ordinal after one that isn't the greatest.
    pub fn successor(self) -> Ordinal
        requires { self <ℤ pos 2147483648 }
        ensures { result ≡ self +ℤ pos 1 }
    {
        Ordinal {
            number: self.number + 1,
        }
    }

    /// The ordinal before one that isn't the least.
    pub fn predecessor(self) -> Ordinal
        requires { neg_ℤ (pos 2147483648) <ℤ self }
        ensures { result ≡ self -ℤ pos 1 }
    {
        Ordinal {
            number: self.number - 1,
        }
    }

    /// The sum, if it is of type integer.
    pub fn plus(self, other: Ordinal) -> Option<Ordinal>
        ensures { result ≡ integer_or_none (self +ℤ other) }
    {
        integer(self.number + other.number)
    }

    /// The difference, if it is of type integer.
    pub fn minus(self, other: Ordinal) -> Option<Ordinal>
        ensures { result ≡ integer_or_none (self -ℤ other) }
    {
        integer(self.number - other.number)
    }

    /// The product, if it is of type integer.
    pub fn times(self, other: Ordinal) -> Option<Ordinal>
        ensures { result ≡ integer_or_none (self *ℤ other) }
    {
        integer(self.number * other.number)
    }

    /// The quotient, cut toward zero (6.7.2.2). The divisor isn't 0.
    pub fn quotient(self, divisor: Ordinal) -> Ordinal
        requires { divisor ≢ pos 0 }
        ensures { result ≡ int_div self divisor }
    {
        Ordinal {
            number: self.number / divisor.number,
        }
    }

    /// The remainder that isn't negative (6.7.2.2). The divisor is at least 1.
    pub fn modulus(self, divisor: Ordinal) -> Ordinal
        requires { pos 1 ≤ℤ divisor }
        ensures { result ≡ int_rem_euclid self divisor }
    {
        Ordinal {
            number: self.number.rem_euclid(divisor.number),
        }
    }

    /// The ordinal without its sign.
    pub fn magnitude(self) -> Ordinal
        ensures { result ≡ magnitude self }
    {
        if self.number < 0 {
            self.negated()
        } else {
            self
        }
    }

    /// Whether it is odd.
    pub fn is_odd(self) -> bool
        ensures { result ≡ is_odd self }
    {
        self.number.rem_euclid(2) == 1
    }

    /// The ordinal of a truth value: false is 0, true is 1 (6.4.2.2).
    pub fn truth(holds: bool) -> Ordinal
        ensures { result ≡ truth holds }
    {
        Ordinal {
            number: i64::from(holds),
        }
    }

    /// Its truth value: whether it isn't 0.
    pub fn is_true(self) -> bool
        ensures { result ≡ is_true self }
    {
        self.number != 0
    }

    /// Whether it lies within `first` to `last`.
    pub fn is_within(self, first: i32, last: i32) -> bool
        ensures { result ≡ is_within first last self }
    {
        i64::from(first) <= self.number && self.number <= i64::from(last)
    }

    /// Whether it is equal to another.
    pub fn equals(self, other: Ordinal) -> bool
        ensures { result ≡ int_eq self other }
    {
        self.number == other.number
    }

    /// Whether it is less than another.
    pub fn is_less_than(self, other: Ordinal) -> bool
        ensures { result ≡ int_lt self other }
    {
        self.number < other.number
    }

    /// Whether it is at most another.
    pub fn is_at_most(self, other: Ordinal) -> bool
        ensures { result ≡ int_le self other }
    {
        self.number <= other.number
    }
}

// The ordinal of a number of type integer.
fn integer(number: i64) -> Option<Ordinal>
    ensures { result ≡ integer_or_none number }
{
    if -2_147_483_647 <= number && number <= 2_147_483_647 {
        Some(Ordinal { number })
    } else {
        None
    }
}
