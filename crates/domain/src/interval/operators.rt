ghost use Rattle.std.specs.Prelude.{◌≡◌, if◌then◌else◌, true, ℤ, pos, ◌*ℤ◌, ◌≤ℤ◌, int_div, int_le};
ghost use Rattle.std.specs.Int.{int_rem_euclid};
ghost use Rattle.std.specs.Ordering.{int_eq};
ghost use Rattle.domain.specs.Order.{span};
ghost use Rattle.domain.specs.Interval.{IsEnd, HasMember, held, nearest_end, extent, product, squared, magnitude, size};
ghost use Rattle.domain.specs.Interval.{absolute, without_zero_end, at_least, at_most, quotient, remainder, is_true};

use crate::{Domain, Interval, LIMIT};

impl Interval {
    /// The products of a number of each range. An end beyond the greatest or the least is held there.
    pub fn multiply(&self, other: &Interval) -> Interval
        ensures ends { result ≡ held (product self.now other.now) }
        ensures members { (x y : ℤ) → HasMember self.now x → HasMember other.now y
            → IsEnd (x *ℤ y) → HasMember result (x *ℤ y) }
    {
        if self.is_empty() || other.is_empty() {
            return Interval::EMPTY;
        }
        Interval::extent(
            nearest_product(self.first(), other.first()),
            nearest_product(self.first(), other.last()),
            nearest_product(self.last(), other.first()),
            nearest_product(self.last(), other.last()),
        )
    }

    /// The squares of the range's numbers, as by the required function sqr (ISO 7185:1990, 6.6.6.2). An end
    /// beyond the greatest is held there.
    pub fn square(&self) -> Interval
        ensures ends { result ≡ held (squared self.now) }
        ensures members { (x : ℤ) → HasMember self.now x → IsEnd (x *ℤ x) → HasMember result (x *ℤ x) }
    {
        if self.is_empty() {
            return Interval::EMPTY;
        }
        if !self.has(0) {
            return Interval::span(
                nearest_product(self.first(), self.first()),
                nearest_product(self.last(), self.last()),
            );
        }
        let size = self.size();
        Interval::span(0, nearest_product(size, size))
    }

    /// The absolute values of the range's numbers, as by the required function abs (ISO 7185:1990, 6.6.6.2).
    pub fn absolute(&self) -> Interval
        ensures ends { result ≡ absolute self.now }
        ensures members { (x : ℤ) → HasMember self.now x → HasMember result (magnitude x) }
    {
        if self.is_empty() {
            return Interval::EMPTY;
        }
        if self.has(0) {
            return Interval {
                first: 0,
                last: self.size(),
            };
        }
        Interval::span(magnitude(self.first()), magnitude(self.last()))
    }

    /// The numbers of the range without an end that is 0.
    pub fn without_zero_end(&self) -> Interval
        ensures ends { result ≡ without_zero_end self.now }
        ensures members { (x : ℤ) → HasMember self.now x → is_true x ≡ true → HasMember result x }
    {
        Interval::between_ends(unless_zero(self.first(), 1), unless_zero(self.last(), -1))
    }

    /// The numbers of the range from a first one on.
    pub fn at_least(&self, first: i64) -> Interval
        ensures ends { result ≡ at_least first self.now }
        ensures members { (x : ℤ) → HasMember self.now x → first ≤ℤ x → HasMember result x }
    {
        if self.last() < first {
            return Interval::EMPTY;
        }
        Interval::between_ends(first.max(self.first()), self.last())
    }

    /// The numbers of the range up to a last one.
    pub fn at_most(&self, last: i64) -> Interval
        ensures ends { result ≡ at_most last self.now }
        ensures members { (x : ℤ) → HasMember self.now x → x ≤ℤ last → HasMember result x }
    {
        if last < self.first() {
            return Interval::EMPTY;
        }
        Interval::between_ends(self.first(), last.min(self.last()))
    }

    /// The quotients of a number of the range by a divisor that isn't 0, as by div (ISO 7185:1990, 6.7.2.2).
    pub fn divide(&self, divisor: &Interval) -> Interval
        ensures ends { result ≡ quotient self.now divisor.now }
        ensures members { (x y : ℤ) → HasMember self.now x → HasMember divisor.now y
            → is_true y ≡ true → HasMember result (int_div x y) }
    {
        if self.is_empty() || divisor.is_empty() {
            return Interval::EMPTY;
        }
        if divisor.has(0) {
            let size = self.size();
            return Interval {
                first: -size,
                last: size,
            };
        }
        Interval::extent(
            quotient(self.first(), divisor.first()),
            quotient(self.first(), divisor.last()),
            quotient(self.last(), divisor.first()),
            quotient(self.last(), divisor.last()),
        )
    }

    /// The remainders of a number of the range by a divisor of at least 1, as by mod (ISO 7185:1990, 6.7.2.2).
    pub fn remainder(&self, divisor: &Interval) -> Interval
        ensures ends { result ≡ remainder self.now divisor.now }
        ensures members { (x y : ℤ) → HasMember self.now x → HasMember divisor.now y
            → int_le (pos 1) y ≡ true → HasMember result (int_rem_euclid x y) }
    {
        if self.is_empty() || divisor.is_empty() || divisor.last() < 1 {
            return Interval::EMPTY;
        }
        let greatest = divisor.last() - 1;
        if self.first() < 0 {
            return Interval::between_ends(0, greatest);
        }
        Interval::between_ends(0, greatest.min(self.last()))
    }

    /// The least range that has four numbers.
    fn extent(p: i64, q: i64, r: i64, s: i64) -> Interval
        requires p_end { IsEnd p }
        requires q_end { IsEnd q }
        requires r_end { IsEnd r }
        requires s_end { IsEnd s }
        ensures { result ≡ extent p q r s }
    {
        Interval::span(p, q).join(&Interval::span(r, s))
    }

    /// The least range that has two numbers.
    fn span(p: i64, q: i64) -> Interval
        requires p_end { IsEnd p }
        requires q_end { IsEnd q }
        ensures { result ≡ span p q }
    {
        Interval {
            first: p.min(q),
            last: p.max(q),
        }
    }

    /// The greatest magnitude of a number of the range.
    fn size(&self) -> i64
        ensures value { result ≡ size self.now }
        ensures bounds { IsEnd result }
    {
        magnitude(self.first()).max(magnitude(self.last()))
    }
}

/// An end, or the number that stands in for it where it is 0.
fn unless_zero(end: i64, other: i64) -> i64
    requires end_end { IsEnd end }
    requires other_end { IsEnd other }
    ensures value { result ≡ (if int_eq end (pos 0) then other else end) }
    ensures bounds { IsEnd result }
{
    if end == 0 { other } else { end }
}

/// The absolute value of an end.
fn magnitude(number: i64) -> i64
    requires { IsEnd number }
    ensures value { result ≡ magnitude number }
    ensures bounds { IsEnd result }
{
    number.max(-number)
}

/// The end that is nearest to a product.
fn nearest_product(left: i64, right: i64) -> i64
    ensures value { result ≡ nearest_end (left *ℤ right) }
    ensures bounds { IsEnd result }
{
    left.saturating_mul(right).min(LIMIT).max(-LIMIT)
}

/// The quotient of two ends.
fn quotient(dividend: i64, divisor: i64) -> i64
    requires dividend_end { IsEnd dividend }
    requires divisor_end { IsEnd divisor }
    requires divisor_present { is_true divisor ≡ true }
    ensures value { result ≡ int_div dividend divisor }
    ensures bounds { IsEnd result }
{
    dividend / divisor
}
