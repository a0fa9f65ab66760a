//! What is known of values: ordinals and sets, by a range.
ghost use Rattle.std.specs.Prelude.{◌≡◌};
ghost use Rattle.domain.specs.Interval.{is_included};
ghost use Rattle.checker_state.specs.Values.{known_range, unless_none};
ghost use Rattle.checker_trail.specs.Trail.{Moves};
ghost use Rattle.checker_expressions.specs.Walk.{held_in, hull_known, limited};

use checker_state::Known;
use checker_trail::State;
use domain::{Domain, Hull, Interval};
use typed_tree::Scalar;

/// A value with its number, or its members, in a range.
pub(crate) fn held_in(holds: Scalar, range: Interval) -> Known
    ensures { result ≡ held_in holds range }
{
    match holds {
        Scalar::Ordinal => Known::Ordinal(range),
        Scalar::Set => Known::Set(Hull::of(&range)),
    }
}

/// The hull of a set.
pub(crate) fn hull(known: Known) -> Hull
    ensures { result ≡ hull_known known }
{
    match known {
        Known::Ordinal(range) => Hull::of(&range),
        Known::Set(hull) => hull,
    }
}

/// A value whose number lies in limits, or whose members do.
pub(crate) fn limited(limits: &Interval, known: &Known) -> Known
    ensures { result ≡ limited limits.now known.now }
{
    match known {
        Known::Ordinal(range) => Known::Ordinal(range.meet(limits)),
        Known::Set(hull) => Known::Set(Hull::of(&hull.range().meet(limits))),
    }
}

/// Whether its number surely lies there, or its members do.
pub(crate) fn lies_in(limits: &Interval, known: &Known) -> bool
    ensures { result ≡ is_included (known_range known.now) limits.now }
{
    match known {
        Known::Ordinal(range) => range.leq(limits),
        Known::Set(hull) => hull.range().leq(limits),
    }
}

/// No run goes on with an ordinal of an empty range.
pub(crate) fn unless_none(state: &mut State, known: &Known)
    ensures { Moves (unless_none known.now) state.old state.new }
{
    match known {
        Known::Ordinal(range) => state.unless_empty(*range),
        Known::Set(_) => {}
    }
}
