ghost use Rattle.std.specs.Prelude.{◌≡◌, ◌||◌, map};
ghost use Rattle.std.specs.List.{list_all, list_any};
ghost use Rattle.certificate.specs.Contents.{said_fact};
ghost use Rattle.checker_rows.specs.View.{numbers};
ghost use Rattle.checker_state.specs.State.{range_of, table_of};
ghost use Rattle.checker_state.specs.Stores.{gives_reached};
ghost use Rattle.checker_state.specs.View.{said_reach};
ghost use Rattle.checker_trail.specs.Trail.{seen};
ghost use Rattle.domain.specs.Facts.{said_spans};
ghost use Rattle.domain.specs.Interval.{is_included};
ghost use Rattle.checker_calls.specs.Actuals.{Reached};
ghost use Rattle.checker_calls.specs.Entry.{are_borne, are_borne_between, are_given, are_ordered, is_borne_between};
ghost use Rattle.checker_calls.specs.Entry.{is_defined_borne, is_empty_between, is_given, range_borne};
ghost use Rattle.checker_calls.specs.View.{said_bearers, said_bindings, said_limits, said_some_limit, said_some_limits};

use crate::actuals::{Bearers, Bindings, bearers_named, is_variable_row};
use crate::between::{Limits, limits_of};
use crate::limits::{Limit, limit_above};
use certificate::Fact;
use checker_rows::Span;
use checker_state::{Indexes, Reach};
use checker_trail::State;
use domain::{Domain, Interval, Spans};

/// Whether each fact that is claimed of the start of a block holds where it is called; at a dead point each does
/// (ISO 7185:1990, 6.6.3).
pub fn are_given(bindings: Bindings, state: &State, facts: &[Fact]) -> bool
    ensures { result ≡ are_given state.now.table.now (said_bindings bindings.entry) (seen state.now)
        (map said_fact facts.now) }
{
    if state.is_dead() {
        return true;
    }
    for fact in facts {
        if !is_given(bindings, state, fact) {
            return false;
        }
    }
    true
}

// Whether a fact of the callee holds where it is called. A growth, which none claims where it begins, isn't known to.
fn is_given(bindings: Bindings, state: &State, fact: &Fact) -> bool
    ensures { result ≡ is_given state.now.table.now (said_bindings bindings.entry) (seen state.now)
        (said_fact fact.now) }
{
    let table = state.table();
    match fact {
        Fact::Range { path, range } => {
            are_within(state, &bearers_named(table, bindings, path), *range)
        }
        Fact::Defined { path, spans } => are_borne(
            bindings,
            state,
            *spans,
            &bearers_named(table, bindings, path),
        ),
        Fact::Order {
            root,
            other,
            number,
        } => are_ordered(
            state,
            limit_above(state, bindings, *root, 0),
            limit_above(state, bindings, *other, *number),
        ),
        Fact::Grows { .. } => false,
    }
}

// Whether the values of each bearer lie in a range.
fn are_within(state: &State, bearers: &Bearers, range: Interval) -> bool
    ensures { result ≡ list_all (λ bearer. is_included (range_borne (seen state.now) bearer) range)
        (said_bearers bearers.now) }
{
    match bearers {
        Bearers::Passed(ranges) => ranges_within(ranges, range),
        Bearers::Reached { rows, .. } => rows_within(state, *rows, range),
    }
}

// Whether each of some ranges does.
fn ranges_within(ranges: &[Interval], range: Interval) -> bool
    ensures { result ≡ list_all (λ one. is_included one range) ranges.now }
{
    ranges.iter().all(|one| one.leq(&range))
}

// Whether those of each of some rows do.
fn rows_within(state: &State, rows: Span, range: Interval) -> bool
    ensures { result ≡ list_all (λ row. is_included (range_of (seen state.now) row) range) (numbers rows) }
{
    for row in rows.first..rows.end() {
        if !state.row_range(row).leq(&range) {
            return false;
        }
    }
    true
}

// Whether of each bearer all is known to be defined, or what lies in spans of the callee.
fn are_borne(bindings: Bindings, state: &State, spans: Spans, bearers: &Bearers) -> bool
    ensures { result ≡ are_borne state.now.table.now (said_bindings bindings.entry) (seen state.now) (said_spans spans)
        (said_bearers bearers.now) }
{
    match spans {
        Spans::None => are_defined(state, bearers),
        Spans::One(span) => are_between(state, bearers, limits_of(state, bindings, span, None)),
        Spans::Two(span, inner) => {
            are_between(
                state,
                bearers,
                limits_of(state, bindings, span, Some(inner)),
            )
        }
    }
}

// Whether each bearer is known to be defined.
fn are_defined(state: &State, bearers: &Bearers) -> bool
    ensures { result ≡ list_all (is_defined_borne state.now.table.now (seen state.now)) (said_bearers bearers.now) }
{
    match bearers {
        Bearers::Passed(_) => true,
        Bearers::Reached { rows, reach } => rows_defined(state, *rows, reach),
    }
}

// Whether what is reached in each of some rows is.
fn rows_defined(state: &State, rows: Span, reach: &Reach) -> bool
    ensures { result ≡ list_all (gives_reached (table_of state.now.table.now) (seen state.now) (said_reach reach.now))
        (numbers rows) }
{
    for row in rows.first..rows.end() {
        if !state.gives_reached(reach, row) {
            return false;
        }
    }
    true
}

// Whether two limits have values, and the first is at most the second.
fn are_ordered(state: &State, first: Option<Limit>, last: Option<Limit>) -> bool
    ensures { result ≡ are_ordered (seen state.now) (said_some_limit first) (said_some_limit last) }
{
    match (first, last) {
        (Some(first), Some(last)) => {
            first.has_value && last.has_value && first.is_at_most(state, &last)
        }
        _ => false,
    }
}

// Whether of each bearer the components between limits are defined.
fn are_between(state: &State, bearers: &Bearers, limits: Option<Limits>) -> bool
    ensures { result ≡ are_borne_between state.now.table.now (seen state.now) (said_bearers bearers.now)
        (said_some_limits limits) }
{
    match limits {
        Some(limits) => limits.have_values() && lie_between(state, bearers, &limits),
        None => false,
    }
}

// Whether there are none between some of the limits, or they are defined.
fn lie_between(state: &State, bearers: &Bearers, limits: &Limits) -> bool
    ensures { result ≡ (list_any (is_empty_between (seen state.now)) (said_limits limits.now)
        || list_all (is_borne_between state.now.table.now (seen state.now) (said_limits limits.now))
        (said_bearers bearers.now)) }
{
    limits.have_empty(state)
        || match bearers {
            Bearers::Passed(_) => true,
            Bearers::Reached { rows, reach } => rows_between(state, *rows, reach, limits),
        }
}

// Whether of each of some rows the components between limits are defined, where this is passed of it.
fn rows_between(state: &State, rows: Span, reach: &Reach, limits: &Limits) -> bool
    ensures { result ≡ list_all (λ row. is_borne_between state.now.table.now (seen state.now) (said_limits limits.now)
        (Reached row (said_reach reach.now))) (numbers rows) }
{
    for row in rows.first..rows.end() {
        if !is_between(state, row, reach, limits) {
            return false;
        }
    }
    true
}

fn is_between(state: &State, row: usize, reach: &Reach, limits: &Limits) -> bool
    ensures { result ≡ is_borne_between state.now.table.now (seen state.now) (said_limits limits.now)
        (Reached row (said_reach reach.now)) }
{
    !is_variable_row(state.table(), row)
        && (state.gives_reached(reach, row)
            || match reach.indexes {
                Indexes::Entire => limits.are_held(state, row),
                Indexes::One(_) => false,
                Indexes::Two(_, _) => false,
            })
}
