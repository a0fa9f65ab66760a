ghost use Rattle.std.specs.Prelude.{◌≡◌, ◌↔◌, ℤ, pos, ◌+ℤ◌, ◌-ℤ◌, neg_ℤ, ◌≤ℤ◌, IsTrue};
ghost use Rattle.domain.specs.Interval.{Interval as Range, IsEnd, HasMember, Includes, has_number, is_vacant};
ghost use Rattle.domain.specs.Interval.{is_included, joined, common, between, sum, difference, negated, held};
ghost use Rattle.domain.specs.Interval.{nearest_end};
ghost use Rattle.domain.specs.Ranges.{included-has, joined-has_left, joined-has_right, common-has, has-present};

use crate::Domain;
use std::marker::Model;

mod numbers;
mod operators;
mod truth_values;

/// The greatest end of a range, and its negative the least: sums of two ends fit 64 bits.
pub(crate) const LIMIT: i64 = 4611686018427387903;

/// A range of whole numbers between -4611686018427387903 and 4611686018427387903. It is empty where its first number
/// is above its last; the empty range is written 1..0.
#[derive(Clone, Copy)]
pub struct Interval {
    first: i64,
    last: i64,
}

impl Model for Interval {
    ghost Value = { Range };

    ghost view = { λ i. record { first = i.first; last = i.last } };

    ghost inverse = { λ r. record { first = r.first; last = r.last } };

    ghost invariant = { λ i. IsEnd i.first × IsEnd i.last };
}

impl Interval {
    /// The range without a number.
    pub const EMPTY: Interval = Interval { first: 1, last: 0 };

    /// The values of the required type integer (ISO 7185:1990, 6.4.2.2).
    pub const INTEGER: Interval = Interval {
        first: -2147483647,
        last: 2147483647,
    };

    /// The ordinal numbers of the values of the required type Boolean (ISO 7185:1990, 6.4.2.2).
    pub const TRUTH_VALUES: Interval = Interval { first: 0, last: 1 };

    /// The numbers that can be members of a set.
    pub const MEMBERS: Interval = Interval {
        first: 0,
        last: 127,
    };

    /// The numbers from a first to a last one: the empty range, 1..0, where the first is above the last.
    pub fn between(first: i32, last: i32) -> Interval
        ensures ends { result ≡ between first last }
        ensures members { (z : ℤ) → HasMember result z ↔ ((first ≤ℤ z) × (z ≤ℤ last)) }
    {
        Interval::between_ends(i64::from(first), i64::from(last))
    }

    /// The first number of a range that isn't empty.
    pub fn first(&self) -> i64
        ensures value { result ≡ self.now.first }
        ensures bounds { IsEnd result }
    {
        self.first
    }

    /// The last number of a range that isn't empty.
    pub fn last(&self) -> i64
        ensures value { result ≡ self.now.last }
        ensures bounds { IsEnd result }
    {
        self.last
    }

    /// Whether the number lies in the range.
    pub fn has(&self, number: i64) -> bool
        ensures answer { result ≡ has_number self.now number }
        ensures member { IsTrue result ↔ HasMember self.now number }
    {
        self.first() <= number && number <= self.last()
    }

    /// The sums of a number of each range. An end beyond the greatest or the least is held there.
    pub fn add(&self, other: &Interval) -> Interval
        ensures ends { result ≡ held (sum self.now other.now) }
        ensures members { (x y : ℤ) → HasMember self.now x → HasMember other.now y
            → IsEnd (x +ℤ y) → HasMember result (x +ℤ y) }
    {
        if self.is_empty() || other.is_empty() {
            return Interval::EMPTY;
        }
        Interval::held(self.first() + other.first(), self.last() + other.last())
    }

    /// The differences of a number of each range. An end beyond the greatest or the least is held there.
    pub fn subtract(&self, other: &Interval) -> Interval
        ensures ends { result ≡ held (difference self.now other.now) }
        ensures members { (x y : ℤ) → HasMember self.now x → HasMember other.now y
            → IsEnd (x -ℤ y) → HasMember result (x -ℤ y) }
    {
        if self.is_empty() || other.is_empty() {
            return Interval::EMPTY;
        }
        Interval::held(self.first() - other.last(), self.last() - other.first())
    }

    /// The negatives of the range's numbers.
    pub fn negate(&self) -> Interval
        ensures ends { result ≡ negated self.now }
        ensures members { (x : ℤ) → HasMember self.now x → HasMember result (neg_ℤ x) }
    {
        if self.is_empty() {
            return Interval::EMPTY;
        }
        Interval {
            first: -self.last(),
            last: -self.first(),
        }
    }

    /// The numbers from a first to a last one.
    pub(crate) fn between_ends(first: i64, last: i64) -> Interval
        requires first_end { IsEnd first }
        requires last_end { IsEnd last }
        ensures { result ≡ between first last }
    {
        if last < first {
            return Interval::EMPTY;
        }
        Interval { first, last }
    }

    /// The range from a first to a last number, an end beyond the greatest or the least held there.
    fn held(first: i64, last: i64) -> Interval
        ensures { result ≡ held (record { first = first; last = last }) }
    {
        Interval {
            first: first.min(LIMIT).max(-LIMIT),
            last: last.min(LIMIT).max(-LIMIT),
        }
    }
}

// The ends of integer: the negative of maxint and maxint.
const _: () = prove!(
    Interval::INTEGER.first == -2147483647 && Interval::INTEGER.last == 2147483647
);

// The ends of Boolean: the ordinal numbers of false and true.
const _: () = prove!(Interval::TRUTH_VALUES.first == 0 && Interval::TRUTH_VALUES.last == 1);

// The least and the greatest number that can be a member.
const _: () = prove!(Interval::MEMBERS.first == 0 && Interval::MEMBERS.last == 127);

impl Domain for Interval {
    ghost Member = { ℤ };

    ghost has = { HasMember };

    ghost below = { is_included };

    ghost joined = { joined };

    ghost common = { common };

    ghost vacant = { is_vacant };

    fn leq(&self, other: &Interval) -> bool
        ensures answer { result ≡ is_included self.now other.now }
        ensures exact { IsTrue result ↔ Includes other.now self.now }
    {
        self.is_empty() || (other.first() <= self.first() && self.last() <= other.last())
    }

    fn join(&self, other: &Interval) -> Interval
        ensures answer { result ≡ joined self.now other.now }
        ensures least { (c : Range) → Includes c self.now → Includes c other.now → Includes c result }
    {
        if self.is_empty() {
            return *other;
        }
        if other.is_empty() {
            return *self;
        }
        Interval {
            first: self.first().min(other.first()),
            last: self.last().max(other.last()),
        }
    }

    fn meet(&self, other: &Interval) -> Interval
        ensures answer { result ≡ common self.now other.now }
        ensures exact { (z : ℤ) → HasMember result z ↔ (HasMember self.now z × HasMember other.now z) }
    {
        let first = self.first().max(other.first());
        let last = self.last().min(other.last());
        if last < first {
            return Interval::EMPTY;
        }
        Interval { first, last }
    }

    fn is_empty(&self) -> bool
        ensures answer { result ≡ is_vacant self.now }
        ensures vacant { IsTrue result ↔ ((z : ℤ) → ¬ HasMember self.now z) }
    {
        self.last() < self.first()
    }

    ghost leq_includes = { included-has };

    ghost join_has_left = { joined-has_left };

    ghost join_has_right = { joined-has_right };

    ghost meet_has_common = { common-has };

    ghost has_present = { has-present };
}
