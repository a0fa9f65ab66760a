ghost use Rattle.std.specs.Prelude.{◌≡◌, ℕ, ◌+◌, ℤ, pos, ◌+ℤ◌, ◌≤ℤ◌, false, IsTrue, IfSome};
ghost use Rattle.domain.specs.GrowthLaws.{within-has, joined-has_pair_left, joined-has_pair_right, common-has_pair};
ghost use Rattle.domain.specs.GrowthLaws.{never_vacant};
ghost use Rattle.domain.specs.Growths.{HasPair, behind, common, is_no_greater, is_within, joined, next, reach, stepped};
ghost use Rattle.domain.specs.Interval.{HasMember, IsEnd, nearest_end};

use crate::{Domain, Interval, LIMIT};

/// What is known of a number that changes with the turns of a loop: behind `k` of them it lies between
/// `first + first_step * k` and `last + last_step * k`. Each of the four is any number of 32 bits, so that sums of two
/// of them, or of one and an end of a range, fit 64 bits.
#[derive(Clone, Copy)]
pub struct Growth {
    /// The least number before the first turn.
    pub first: i32,
    /// What each turn adds at least.
    pub first_step: i32,
    /// The greatest number before the first turn.
    pub last: i32,
    /// What each turn adds at most.
    pub last_step: i32,
}

impl Growth {
    /// What is known of the sums of such a number and one of a range; `None` where an end isn't between -2147483647 and
    /// 2147483647.
    pub fn stepped(&self, range: &Interval) -> Option<Growth>
        ensures value { result ≡ stepped range.now self.now }
        ensures members { IfSome result (λ more. (k : ℕ) (n e : ℤ) → HasPair self.now (k, n)
            → HasMember range.now e → HasPair more (k, n +ℤ e)) }
    {
        let first = i64::from(self.first) + range.first();
        let last = i64::from(self.last) + range.last();
        if Interval::INTEGER.has(first) && Interval::INTEGER.has(last) {
            Some(Growth {
                first: first as i32,
                last: last as i32,
                ..*self
            })
        } else {
            None
        }
    }

    /// Whether each member behind some turns is one of `begun` behind one turn more; `false` may also mean that it
    /// can't be told.
    pub fn is_within_next(&self, begun: &Growth) -> bool
        ensures answer { result ≡ is_within self.now (next begun.now) }
        ensures members { IsTrue result → (k : ℕ) (n : ℤ) → HasPair self.now (k, n)
            → HasPair begun.now (k + 1, n) }
    {
        let first = i64::from(begun.first) + i64::from(begun.first_step);
        let last = i64::from(begun.last) + i64::from(begun.last_step);
        let lower = is_no_greater(
            first,
            begun.first_step,
            i64::from(self.first),
            self.first_step,
        );
        let upper = is_no_greater(i64::from(self.last), self.last_step, last, begun.last_step);
        lower && upper
    }

    /// The numbers behind at most so many turns. An end beyond the greatest or the least of a range is held there.
    pub fn reach(&self, most: i64) -> Interval
        ensures ends { result ≡ reach most self.now }
        ensures members { (k : ℕ) (n : ℤ) → HasPair self.now (k, n) → pos k ≤ℤ most → IsEnd n
            → HasMember result n }
    {
        Interval::between_ends(
            i64::from(self.first).min(nearest_behind(self.first, self.first_step, most)),
            i64::from(self.last).max(nearest_behind(self.last, self.last_step, most)),
        )
    }
}

impl Domain for Growth {
    ghost Member = { ℕ × ℤ };

    ghost has = { HasPair };

    ghost below = { is_within };

    ghost joined = { joined };

    ghost common = { common };

    ghost vacant = { λ _. false };

    fn leq(&self, other: &Growth) -> bool
        ensures { result ≡ is_within self.now other.now }
    {
        let (first, last) = (i64::from(self.first), i64::from(self.last));
        let lower = is_no_greater(
            i64::from(other.first),
            other.first_step,
            first,
            self.first_step,
        );
        let upper = is_no_greater(last, self.last_step, i64::from(other.last), other.last_step);
        lower && upper
    }

    fn join(&self, other: &Growth) -> Growth
        ensures { result ≡ joined self.now other.now }
    {
        Growth {
            first: self.first.min(other.first),
            first_step: self.first_step.min(other.first_step),
            last: self.last.max(other.last),
            last_step: self.last_step.max(other.last_step),
        }
    }

    fn meet(&self, other: &Growth) -> Growth
        ensures { result ≡ common self.now other.now }
    {
        if !self.leq(other) && other.leq(self) {
            *other
        } else {
            *self
        }
    }

    fn is_empty(&self) -> bool
        ensures { result ≡ false }
    {
        false
    }

    ghost leq_includes = { within-has };

    ghost join_has_left = { joined-has_pair_left };

    ghost join_has_right = { joined-has_pair_right };

    ghost meet_has_common = { common-has_pair };

    ghost has_present = { never_vacant };
}

/// Whether neither where it begins nor in its step one is greater than another.
fn is_no_greater(begun: i64, step: i32, other_begun: i64, other_step: i32) -> bool
    ensures { result ≡ is_no_greater begun step other_begun other_step }
{
    begun <= other_begun && step <= other_step
}

/// The end of a range that is nearest to what a number is behind so many turns.
fn nearest_behind(begun: i32, step: i32, most: i64) -> i64
    ensures value { result ≡ nearest_end (behind begun step most) }
    ensures bounds { IsEnd result }
{
    i64::from(step)
        .saturating_mul(most)
        .saturating_add(i64::from(begun))
        .min(LIMIT)
        .max(-LIMIT)
}
