ghost use Rattle.std.specs.Prelude.{◌≡◌, ◌↔◌, ℕ, ℤ, false, IsTrue};
ghost use Rattle.members.specs.declared.sets.Operator.TheVariants as operator;
ghost use Rattle.members.specs.Laws.{IsSet};
ghost use Rattle.members.specs.Members.{empty, of_one, of_range, of_two};
ghost use Rattle.domain.specs.Interval.{Interval as Range, HasMember, is_included, joined, common};
ghost use Rattle.domain.specs.Hull.{HasSet, IncludesSets, IsHull, hull_of, hull_between};
ghost use Rattle.domain.specs.Hulls.{included-has_set, joined-has_set_left, joined-has_set_right, common-has_set};
ghost use Rattle.domain.specs.Hulls.{never_vacant};

use crate::{Domain, Interval};
use std::marker::Model;

/// What is known of a set: the range in which all its members lie.
#[derive(Clone, Copy)]
pub struct Hull {
    range: Interval,
}

impl Model for Hull {
    ghost Value = { Range };

    ghost view = { λ h. h.range };

    ghost inverse = { λ r. record { range = r } };

    ghost invariant = { λ h. IsHull h.range };
}

impl Hull {
    /// The hull of the sets with members in a range, as of the sets of one number of the range.
    pub fn of(range: &Interval) -> Hull
        ensures ends { result ≡ hull_of range.now }
        ensures sets { (set : ℕ) → IsSet set → HasSet result set ↔ HasSet range.now set }
        ensures one { (n : ℤ) → HasMember range.now n → HasSet result (of_one n) }
    {
        Hull {
            range: range.meet(&Interval::MEMBERS),
        }
    }

    /// The hull of the sets of all members from a number of one range to a number of another, as by a member designator
    /// with two expressions (ISO 7185:1990, 6.7.1).
    pub fn between(first: &Interval, last: &Interval) -> Hull
        ensures ends { result ≡ hull_between first.now last.now }
        ensures sets { (low high : ℤ) → HasMember first.now low → HasMember last.now high
            → HasSet result (of_range low high) }
    {
        let from_first = Interval::MEMBERS.at_least(first.first());
        Hull {
            range: from_first.at_most(last.last()),
        }
    }

    /// The range in which all members lie.
    pub fn range(&self) -> Interval
        ensures value { result ≡ self.now }
        ensures sets { (set : ℕ) → HasSet self.now set → IsSet set }
    {
        self.range
    }

    /// The unions of a set of each hull (ISO 7185:1990, 6.7.2.4).
    pub fn union(&self, other: &Hull) -> Hull
        ensures ends { result ≡ joined self.now other.now }
        ensures sets { (a b : ℕ) → HasSet self.now a → HasSet other.now b
            → HasSet result (of_two operator.Union a b) }
    {
        self.join(other)
    }

    /// The intersections of a set of each hull (ISO 7185:1990, 6.7.2.4).
    pub fn intersection(&self, other: &Hull) -> Hull
        ensures ends { result ≡ common self.now other.now }
        ensures sets { (a b : ℕ) → HasSet self.now a → HasSet other.now b
            → HasSet result (of_two operator.Intersection a b) }
    {
        self.meet(other)
    }

    /// The differences of a set of each hull (ISO 7185:1990, 6.7.2.4): nothing tells which members the other one has.
    pub fn difference(&self, _other: &Hull) -> Hull
        ensures ends { result ≡ self.now }
        ensures sets { (a b : ℕ) → HasSet self.now a → HasSet result (of_two operator.Difference a b) }
    {
        *self
    }
}

impl Domain for Hull {
    ghost Member = { ℕ };

    ghost has = { HasSet };

    ghost below = { is_included };

    ghost joined = { joined };

    ghost common = { common };

    ghost vacant = { λ _. false };

    fn leq(&self, other: &Hull) -> bool
        ensures answer { result ≡ is_included self.now other.now }
        ensures exact { IsTrue result ↔ IncludesSets other.now self.now }
    {
        self.range.leq(&other.range)
    }

    fn join(&self, other: &Hull) -> Hull
        ensures answer { result ≡ joined self.now other.now }
        ensures least { (c : Range) → IncludesSets c self.now → IncludesSets c other.now → IncludesSets c result }
    {
        Hull {
            range: self.range.join(&other.range),
        }
    }

    fn meet(&self, other: &Hull) -> Hull
        ensures answer { result ≡ common self.now other.now }
        ensures exact { (set : ℕ) → HasSet result set ↔ (HasSet self.now set × HasSet other.now set) }
    {
        Hull {
            range: self.range.meet(&other.range),
        }
    }

    fn is_empty(&self) -> bool
        ensures answer { result ≡ false }
        ensures empty_set { HasSet self.now empty }
    {
        false
    }

    ghost leq_includes = { included-has_set };

    ghost join_has_left = { joined-has_set_left };

    ghost join_has_right = { joined-has_set_right };

    ghost meet_has_common = { common-has_set };

    ghost has_present = { never_vacant };
}
