//! Facts that others say as well.

use certificate::Fact;
use checker_loops::claims::{kept_bound, rows_named};
use checker_rows::Rows;
use domain::{Bound, Path, Span, Spans, Step};

// How far a fact may stand from one that says it, in the order of facts.
const NEAR: usize = 64;

/// Drops of facts, which stand in their order, those that another one says near them.
pub(crate) fn drop_implied(rows: &Rows, facts: &mut Vec<Fact>) {
    for place in (0..facts.len()).rev() {
        if place < facts.len() && is_implied(rows, facts, place) {
            let _implied = facts.remove(place);
        }
    }
}

fn is_implied(rows: &Rows, facts: &[Fact], place: usize) -> bool {
    let Some(Fact::Defined { path, spans }) = facts.get(place) else {
        return false;
    };
    let first = place.saturating_sub(NEAR);
    let last = place.saturating_add(NEAR);
    (first..last).any(|at| at != place && says(rows, facts.get(at), path, *spans))
}

// Whether there is a fact which says that what lies in spans of a part is defined.
fn says(rows: &Rows, fact: Option<&Fact>, part: &Path, others: Spans) -> bool {
    match fact {
        Some(Fact::Defined { path, spans }) => {
            leads_to(path, part) && have(rows, path, *spans, others)
        }
        _ => false,
    }
}

// Whether what lies in spans of what a path leads to has what lies in spans of a part of that: the spans of both are of
// the first indexes on the way from the variable.
fn have(rows: &Rows, path: &Path, spans: Spans, others: Spans) -> bool {
    match (spans, others) {
        (Spans::None, _) => true,
        (Spans::One(span), Spans::One(other) | Spans::Two(other, _)) => {
            has(span, other) || is_all(rows, path, span.first, span.last)
        }
        (Spans::Two(span, inner), Spans::Two(other, within)) => has(span, other)
            && has(inner, within),
        (Spans::One(_) | Spans::Two(_, _), _) => false,
    }
}

// Whether a span has all of another, whatever variables hold.
fn has(span: Span, other: Span) -> bool {
    is_at_most(span.first, other.first) && is_at_most(other.last, span.last)
}

// Whether a path leads to a part, or to what that lies in.
fn leads_to(path: &Path, part: &Path) -> bool {
    let mut both = path.steps.iter().zip(part.steps.iter());
    path.root == part.root
        && path.steps.len() <= part.steps.len()
        && both.all(|(step, other)| is_same(step, other))
}

fn is_same(step: &Step, other: &Step) -> bool {
    match (step, other) {
        (Step::Element, Step::Element) => true,
        (Step::Field { name }, Step::Field { name: other }) => name.as_slice() == other.as_slice(),
        _ => false,
    }
}

// Whether the one bound is at most the other, whatever variables hold.
fn is_at_most(bound: Bound, other: Bound) -> bool {
    let (bound, other) = (kept_bound(bound), kept_bound(other));
    bound.root == other.root && bound.number <= other.number
}

// Whether all indexes of an array lie between two bounds.
fn is_all(rows: &Rows, path: &Path, first: Bound, last: Bound) -> bool {
    match (first, last, rows.index(rows_named(rows, path).first)) {
        (Bound::Number(first), Bound::Number(last), Some(range)) => {
            first <= range.first && range.last <= last
        }
        _ => false,
    }
}
