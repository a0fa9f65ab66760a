//! What lies between limits, where a block is called: whether what is held has it.
ghost use Rattle.std.specs.Prelude.{◌≡◌, ◌∷◌, map};
ghost use Rattle.std.specs.List.{list_all, list_any};
ghost use Rattle.checker_rows.specs.Rows.{indexes_at, rows_of};
ghost use Rattle.checker_state.specs.State.{is_had};
ghost use Rattle.checker_known.specs.Knowledge.{core, viewed};
ghost use Rattle.checker_trail.specs.Trail.{seen};
ghost use Rattle.domain.specs.Facts.{said_span as said_claimed};
ghost use Rattle.checker_calls.specs.Entry.{have_values, holds_between, is_empty_between, limits_of, limits_of_span};
ghost use Rattle.checker_calls.specs.Entry.{wanted_between};
ghost use Rattle.checker_calls.specs.View.{inner_claimed, said_between, said_bindings, said_limits};
ghost use Rattle.checker_calls.specs.View.{said_some_between, said_some_limits};

use crate::Bindings;
use crate::limits::{Limit, limit_of};
use checker_known::{Ask, Wanted};
use checker_state::Bound;
use checker_trail::State;
use domain::facts;

/// The limits of a span of a callee.
#[derive(Clone, Copy)]
pub(crate) struct Between {
    first: Limit,
    last: Limit,
}

/// Those of one span, and perhaps of one inside it.
#[derive(Clone, Copy)]
pub(crate) struct Limits {
    span: Between,
    inner: Option<Between>,
}

/// The limits of spans of a callee where it is called, if all are there.
pub(crate) fn limits_of(
    state: &State,
    bindings: Bindings,
    span: facts::Span,
    inner: Option<facts::Span>,
) -> Option<Limits>
    ensures { said_some_limits result ≡ limits_of state.now.table.now (seen state.now) (said_bindings bindings.entry)
        (said_claimed span ∷ inner_claimed inner) }
{
    let span = span_limits(state, bindings, span)?;
    match inner {
        None => Some(Limits { span, inner: None }),
        Some(inner) => {
            let inner = span_limits(state, bindings, inner)?;
            Some(Limits {
                span,
                inner: Some(inner),
            })
        }
    }
}

fn span_limits(state: &State, bindings: Bindings, span: facts::Span) -> Option<Between>
    ensures { said_some_between result
        ≡ limits_of_span state.now.table.now (seen state.now) (said_bindings bindings.entry) (said_claimed span) }
{
    let first = limit_of(state, bindings, span.first)?;
    let last = limit_of(state, bindings, span.last)?;
    Some(Between { first, last })
}

impl Between {
    // Whether both have values.
    fn have_values(&self) -> bool
        ensures { result ≡ have_values (said_between self.now) }
    {
        self.first.has_value && self.last.has_value
    }

    // Whether no index lies between them.
    fn is_empty(&self, state: &State) -> bool
        ensures { result ≡ is_empty_between (seen state.now) (said_between self.now) }
    {
        self.last.lies_below(state, &self.first)
    }
}

/// What is asked of a span between limits, where a run is.
#[derive(Clone, Copy)]
struct Asked<'s> {
    state: &'s State<'s>,
    limits: &'s Between,
}

impl<'s> Ask for Asked<'s> {
    ghost asks = { λ asked. wanted_between asked.state.now.table.now (seen asked.state.now)
        (said_between asked.limits.now) };

    fn begins(&self, bound: Bound) -> bool {
        Limit::of(self.state, bound).is_at_most(self.state, &self.limits.first)
    }

    fn ends(&self, bound: Bound) -> bool {
        self.limits
            .last
            .is_at_most(self.state, &Limit::of(self.state, bound))
    }
}

impl Limits {
    /// Whether all of them have values.
    pub(crate) fn have_values(&self) -> bool
        ensures { result ≡ list_all have_values (said_limits self.now) }
    {
        self.span.have_values()
            && match self.inner {
                None => true,
                Some(inner) => inner.have_values(),
            }
    }

    /// Whether no index lies between some two.
    pub(crate) fn have_empty(&self, state: &State) -> bool
        ensures { result ≡ list_any (is_empty_between (seen state.now)) (said_limits self.now) }
    {
        self.span.is_empty(state)
            || match self.inner {
                None => false,
                Some(inner) => inner.is_empty(state),
            }
    }

    /// Whether what is held of a row has what lies between them.
    pub(crate) fn are_held(&self, state: &State, row: usize) -> bool
        ensures { result ≡ holds_between state.now.table.now (seen state.now) row (said_limits self.now) }
    {
        if state.is_dead() {
            return false;
        }
        self.is_had(state, row)
    }

    // The same, where a run is.
    fn is_had<'s>(&'s self, state: &'s State<'s>, row: usize) -> bool
        ensures { result ≡ is_had (viewed (core state.now.known)) (indexes_at (rows_of state.now.table.now) row) row
            (map (wanted_between state.now.table.now (seen state.now)) (said_limits self.now)) }
    {
        let whole = Wanted {
            row,
            first: wanted(state, &self.span),
            second: match &self.inner {
                None => None,
                Some(inner) => Some(wanted(state, inner)),
            },
        };
        state.known().has(state.table(), whole)
    }
}

// What is asked of a span between limits.
fn wanted<'s>(state: &'s State<'s>, limits: &'s Between) -> Asked<'s>
    ensures { wanted_between result.state.now.table.now (seen result.state.now) (said_between result.limits.now)
        ≡ wanted_between state.now.table.now (seen state.now) (said_between limits.now) }
{
    Asked { state, limits }
}
