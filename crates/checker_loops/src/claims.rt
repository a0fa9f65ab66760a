ghost use Rattle.std.specs.Prelude.{◌≡◌, map};
ghost use Rattle.domain.specs.Facts.{said_path};
ghost use Rattle.domain.specs.Facts as fact;
ghost use Rattle.certificate.specs.Contents.{said_fact};
ghost use Rattle.checker_rows.specs.View.{numbers};
ghost use Rattle.checker_state.specs.Loops.{gives_all, with_claims};
ghost use Rattle.checker_state.specs.State.{table_of};
ghost use Rattle.checker_state.specs.View as kept;
ghost use Rattle.checker_trail.specs.Trail.{Moves, seen};
ghost use Rattle.checker_loops.specs.Loops.{all_said, asked, defined_of, gives_claims, rows_named, said, said_bound};
ghost use Rattle.checker_loops.specs.Loops.{said_span};
ghost use Rattle.checker_loops.specs.View.{asked_at, claim_at, rows_said};

use certificate::Fact;
use checker_rows::{Rows, Span};
use checker_state::{Bound, Claim};
use checker_trail::{State, all_of_row};
use domain::Interval;
use domain::facts::{self, Path, Spans};

/// What a certificate claims is known from here on.
pub fn claim_facts(state: &mut State, facts: &[Fact])
    ensures { Moves (with_claims (all_said state.old.table.now (map said_fact facts.now))) state.old state.new }
{
    let rows = state.table();
    for fact in facts {
        claim_fact(state, rows, fact);
    }
}

/// A fact is known, row by row.
fn claim_fact(state: &mut State, rows: &Rows, fact: &Fact)
    ensures { Moves (with_claims (said rows.now (said_fact fact.now))) state.old state.new }
{
    let span = rows_said(rows, fact);
    for row in span.first..span.end() {
        state.claim(&claim_at(rows, fact, row));
    }
}

/// Whether a state gives each of several facts.
pub fn gives_facts(state: &State, facts: &[Fact]) -> bool
    ensures { result ≡ gives_claims state.now.table.now (seen state.now) (map said_fact facts.now) }
{
    for fact in facts {
        if !gives_fact(state, fact) {
            return false;
        }
    }
    true
}

/// Whether it gives a fact, row by row.
fn gives_fact(state: &State, fact: &Fact) -> bool
    ensures { result ≡ gives_all (table_of state.now.table.now) (seen state.now)
        (asked state.now.table.now (said_fact fact.now)) }
{
    let rows = state.table();
    let span = rows_said(rows, fact);
    for row in span.first..span.end() {
        if !state.gives(&asked_at(rows, fact, row)) {
            return false;
        }
    }
    true
}

/// The rows of which a fact says something; an order, which speaks of none, is said once, and a growth not at all.
fn rows_said(rows: &Rows, fact: &Fact) -> Span
    ensures { numbers result ≡ rows_said rows.now (said_fact fact.now) }
{
    match fact {
        Fact::Range { path, .. } => rows_named(rows, path),
        Fact::Defined { path, .. } => rows_named(rows, path),
        Fact::Order { .. } => Span { first: 0, count: 1 },
        Fact::Grows { .. } => Span::none(),
    }
}

/// What it says there; a growth that values are integers, which they are.
fn claim_at(rows: &Rows, fact: &Fact, row: usize) -> Claim
    ensures { kept.said_claim result ≡ claim_at rows.now (said_fact fact.now) row }
{
    match fact {
        Fact::Range { range, .. } => Claim::Range { row, range: *range },
        Fact::Defined { spans, .. } => defined_of(rows, *spans, row),
        Fact::Order {
            root,
            other,
            number,
        } => Claim::at_most_by(*root, *other, *number),
        Fact::Grows { .. } => Claim::Range {
            row,
            range: Interval::INTEGER,
        },
    }
}

/// What is asked there: all of a row is asked of the row, so that two stretches that meet don't give it together.
fn asked_at(rows: &Rows, fact: &Fact, row: usize) -> Claim
    ensures { kept.said_claim result ≡ asked_at rows.now (said_fact fact.now) row }
{
    match fact {
        Fact::Defined {
            spans: Spans::None,
            ..
        } => Claim::Defined { row },
        fact => claim_at(rows, fact, row),
    }
}

/// All of a row is defined, or what lies in spans.
fn defined_of(rows: &Rows, spans: Spans, row: usize) -> Claim
    ensures { kept.said_claim result ≡ defined_of rows.now (fact.said_spans spans) row }
{
    match spans {
        Spans::None => all_of_row(rows.index(row), row),
        Spans::One(span) => Claim::in_spans(row, kept_span(span), None),
        Spans::Two(span, inner) => Claim::in_spans(row, kept_span(span), Some(kept_span(inner))),
    }
}

/// A span of a certificate as states have it.
fn kept_span(span: facts::Span) -> checker_state::Span
    ensures { kept.said_span result ≡ said_span (fact.said_span span) }
{
    checker_state::Span {
        first: kept_bound(span.first),
        last: kept_bound(span.last),
    }
}

/// A bound of a certificate as states have it.
pub fn kept_bound(bound: facts::Bound) -> Bound
    ensures { kept.said_bound result ≡ said_bound (fact.said_bound bound) }
{
    match bound {
        facts::Bound::Number(number) => Bound::constant(number),
        facts::Bound::Plus { root, number } => Bound::plus(root, number),
    }
}

/// The rows under what a path names; none where it names nothing.
pub fn rows_named(rows: &Rows, path: &Path) -> Span
    ensures { numbers result ≡ rows_named rows.now (said_path path.now) }
{
    match rows.named(path) {
        None => Span::none(),
        Some(part) => part.rows,
    }
}
