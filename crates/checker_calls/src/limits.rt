ghost use Rattle.std.specs.Prelude.{◌≡◌, ℕ, ℤ, Some, option_map, pos};
ghost use Rattle.checker_state.specs.Bounds.{raised_bound};
ghost use Rattle.checker_state.specs.State.{bound_range_by, moved};
ghost use Rattle.checker_state.specs.View.{AreEnds, said_bound};
ghost use Rattle.checker_trail.specs.Trail.{seen};
ghost use Rattle.domain.specs.Facts.{said_bound as said_claimed};
ghost use Rattle.checker_calls.specs.Entry.{forms_at_most, is_at_most, limit_moved, limit_of, limit_of_actual};
ghost use Rattle.checker_calls.specs.Entry.{limit_of_bound, limit_of_plus};
ghost use Rattle.checker_calls.specs.View.{said_actual, said_bindings, said_limit, said_some_limit, said_terms};

use crate::actuals::is_variable_row;
use crate::{Actual, Bindings, is_whole};
use checker_state::{Bound, Ends, Term};
use checker_trail::State;
use domain::{Bound as ClaimedBound, Interval};

/// What a bound of a callee is where it is called.
#[derive(Clone, Copy)]
pub(crate) struct Limit {
    /// A bound form, if there is one, and the range in which it lies, both less a number.
    form: Option<Bound>,
    range: Interval,
    number: i32,
    /// Whether it is known to have a value.
    pub(crate) has_value: bool,
}

impl Limit {
    /// That of a bound form.
    pub(crate) fn of(state: &State, bound: Bound) -> Limit
        ensures { said_limit result ≡ limit_of state.now.table.now (seen state.now) (said_bound bound) }
    {
        Limit {
            form: Some(Bound {
                root: bound.root,
                number: 0,
            }),
            range: range_of(state, bound.root),
            number: bound.number,
            has_value: state.has_value(bound),
        }
    }

    /// Whether it is known to be at most another, by forms or by ranges.
    pub(crate) fn is_at_most(&self, state: &State, other: &Limit) -> bool
        ensures { result ≡ is_at_most (seen state.now) (said_limit self.now) (said_limit other.now) }
    {
        self.is_at_most_by(state, 0, other)
    }

    /// Whether it is known to lie below another.
    pub(crate) fn lies_below(&self, state: &State, other: &Limit) -> bool
        ensures { result
            ≡ is_at_most (seen state.now) (limit_moved (pos 1) (said_limit self.now)) (said_limit other.now) }
    {
        self.is_at_most_by(state, 1, other)
    }

    // Whether it and a number are known to be at most another.
    fn is_at_most_by(&self, state: &State, by: i32, other: &Limit) -> bool
        ensures { result ≡ is_at_most (seen state.now) (limit_moved by (said_limit self.now)) (said_limit other.now) }
    {
        are_at_most(state, self.term(by), other.term(0)) || self.ends(by).is_below(other.ends(0))
    }

    // The form and a number.
    fn term(&self, by: i32) -> Option<Term>
        ensures { said_terms result ≡ option_map (raised_bound by) (said_limit self.now).form }
    {
        match self.form {
            None => None,
            Some(bound) => Some(Term {
                root: bound.root,
                number: i64::from(bound.number) + i64::from(self.number) + i64::from(by),
            }),
        }
    }

    // The ends of the range and a number.
    fn ends(&self, by: i32) -> Ends
        ensures { AreEnds result (moved by (said_limit self.now).range) }
    {
        Ends::moved(self.range, i64::from(self.number) + i64::from(by))
    }
}

// Where the value of a variable lies; without one the number 0.
fn range_of(state: &State, root: Option<u32>) -> Interval
    ensures { (number : ℤ) → moved number result ≡ bound_range_by (seen state.now) root number }
{
    match root {
        None => Interval::between(0, 0),
        Some(root) => state.range(root),
    }
}

// Whether both forms are there, and the first is known to be at most the second.
fn are_at_most(state: &State, one: Option<Term>, other: Option<Term>) -> bool
    ensures { result ≡ forms_at_most (seen state.now) (said_terms one) (said_terms other) }
{
    match (one, other) {
        (Some(one), Some(other)) => state.knows_at_most(one, other),
        _ => false,
    }
}

/// A bound of a callee where it is called.
pub(crate) fn limit_of(state: &State, bindings: Bindings, bound: ClaimedBound) -> Option<Limit>
    ensures { said_some_limit result
        ≡ limit_of_bound state.now.table.now (seen state.now) (said_bindings bindings.entry) (said_claimed bound) }
{
    match bound {
        ClaimedBound::Number(number) => Some(Limit::of(state, Bound::constant(number))),
        ClaimedBound::Plus { root, number } => limit_above(state, bindings, root, number),
    }
}

/// A variable of the callee plus a number.
pub(crate) fn limit_above(
    state: &State,
    bindings: Bindings,
    root: u32,
    number: i32,
) -> Option<Limit>
    ensures { said_some_limit result
        ≡ limit_of_plus state.now.table.now (seen state.now) (said_bindings bindings.entry) root number }
{
    match bindings.actual(root) {
        None => Some(Limit::of(state, Bound::plus(root, number))),
        Some(actual) => limit_of_actual(state, root, actual, number),
    }
}

// A formal parameter of it plus a number.
fn limit_of_actual(state: &State, root: u32, actual: &Actual, number: i32) -> Option<Limit>
    ensures { said_some_limit result ≡ option_map (limit_moved number)
        (limit_of_actual state.now.table.now (seen state.now) root (Some (said_actual actual.now))) }
{
    match actual {
        Actual::Value { range, form } => Some(Limit {
            form: *form,
            range: *range,
            number,
            has_value: state.table().is_ordinal_variable(root),
        }),
        Actual::Rows(_) => None,
        Actual::Variable { access, .. } => {
            if is_whole(access) && is_variable_row(state.table(), access.root as usize) {
                return Some(Limit::of(state, Bound::plus(access.root, number)));
            }
            None
        }
    }
}
