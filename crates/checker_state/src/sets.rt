ghost use Rattle.std.specs.Prelude.{◌≡◌};
ghost use Rattle.checker_state.specs.Values.{is_closed_member, is_closed_range, operated_sets, tested_member};
ghost use Rattle.checker_state.specs.Values.{with_member, with_members};

use domain::{Domain, Hull, Interval};
use members::sets::Operator;

/// Whether the test of a member of a set constructor surely passes (ISO 7185:1990, 6.7.1).
pub fn is_closed_member(range: &Interval) -> bool
    ensures { result ≡ is_closed_member range.now }
{
    range.leq(&Interval::MEMBERS)
}

/// Where a member lies that passed its test.
pub fn tested_member(range: &Interval) -> Interval
    ensures { result ≡ tested_member range.now }
{
    range.meet(&Interval::MEMBERS)
}

/// Whether the test of all members from a first to a last one surely passes.
pub fn is_closed_range(first: &Interval, last: &Interval) -> bool
    ensures { result ≡ is_closed_range first.now last.now }
{
    last.last() < first.first() || (is_closed_member(first) && is_closed_member(last))
}

/// The hull of a set with a member more.
pub fn with_member(hull: &Hull, range: &Interval) -> Hull
    ensures { result ≡ with_member hull.now range.now }
{
    hull.union(&Hull::of(range))
}

/// The hull of a set with all members from a first to a last one more.
pub fn with_members(hull: &Hull, first: &Interval, last: &Interval) -> Hull
    ensures { result ≡ with_members hull.now first.now last.now }
{
    hull.union(&Hull::between(first, last))
}

/// The hull of what an operator of sets gives (6.7.2.4).
pub fn operated_sets(operator: Operator, left: &Hull, right: &Hull) -> Hull
    ensures { result ≡ operated_sets operator left.now right.now }
{
    match operator {
        Operator::Union => left.union(right),
        Operator::Intersection => left.intersection(right),
        Operator::Difference => left.difference(right),
    }
}
