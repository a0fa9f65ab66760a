ghost use Rattle.std.specs.Prelude.{◌≡◌, map, suc};
ghost use Rattle.std.specs.Bool.{OnTrue};
ghost use Rattle.checker_state.specs.View.{said_held, said_point, said_span, said_spans};
ghost use Rattle.checker_known.specs.Knots.{IsLoose, goes_on, is_plain, knot, knot_at, lowered, raised, recounted};
ghost use Rattle.checker_known.specs.Longer.{AreNear};
ghost use Rattle.checker_known.specs.Knowledge.{core, viewed};

use crate::{Knowledge, Test, edge};
use checker_state::{Group, Held, Point, Span, Stretch};

/// The rows in which knots went, or came, at a place and the next.
pub(crate) type Knots = (Option<usize>, Option<usize>);

// Whether both bounds are numbers, and the first is at most the last.
fn is_plain(span: Span) -> bool
    ensures { result ≡ is_plain (said_span span) }
{
    span.first.root.is_none() && (span.last.root.is_none() && span.first.number <= span.last.number)
}

// Whether the first spans of two are plain, and that of the other ends no sooner.
fn goes_on(one: &Stretch, other: &Stretch) -> bool
    ensures { result ≡ goes_on (said_spans one.now) (said_spans other.now) }
{
    is_plain(one.span) && (is_plain(other.span) && one.span.last.number <= other.span.last.number)
}

// The row of two stretches of which the other doesn't go on from the one.
fn knot(one: &Held, other: &Held) -> Option<usize>
    ensures { result ≡ knot (said_held one.now) (said_held other.now) }
{
    let one = one.stretch()?;
    let other = other.stretch()?;
    if one.row == other.row && !goes_on(&one, &other) {
        Some(one.row)
    } else {
        None
    }
}

/// The same of the one before a place and the one at it, if there are both.
pub(crate) fn knot_at(held: &[Held], place: usize) -> Option<usize>
    ensures { result ≡ knot_at place (map said_held held.now) }
{
    if place == 0 {
        return None;
    }
    if place >= held.len() {
        return None;
    }
    knot(&held[place - 1], &held[place])
}

/// The same of a place and the next.
pub(crate) fn knots_around(held: &[Held], place: usize) -> Knots
    ensures first { result.0 ≡ knot_at place (map said_held held.now) }
    ensures next { result.1 ≡ knot_at (suc place) (map said_held held.now) }
{
    if place >= held.len() {
        return (None, None);
    }
    (knot_at(held, place), knot_at(held, place + 1))
}

/// Counts knots that went and that came.
pub(crate) fn recount(knots: &mut Vec<usize>, gone: Knots, come: Knots)
    ensures { knots.new.items ≡ recounted gone come knots.old.items }
{
    lower(knots, gone.0);
    lower(knots, gone.1);
    raise(knots, come.0);
    raise(knots, come.1);
}

fn lower(knots: &mut Vec<usize>, row: Option<usize>)
    ensures { knots.new.items ≡ lowered row knots.old.items }
{
    if let Some(row) = row {
        if row < knots.len() {
            knots[row] = knots[row].saturating_sub(1);
        }
    }
}

fn raise(knots: &mut Vec<usize>, row: Option<usize>)
    ensures { knots.new.items ≡ raised row knots.old.items }
{
    if let Some(row) = row {
        if row < knots.len() {
            knots[row] = knots[row].saturating_add(1);
        }
    }
}

impl Knowledge {
    /// The places between which what first indexes of a row make longer stands.
    pub(crate) fn near(&self, row: usize, point: Point) -> (usize, usize)
        ensures { AreNear (viewed (core self.now)) row (said_point point) (map said_held self.now.held.items)
            result.0 result.1 }
    {
        let (first, end) = self.places(Group::Row(row));
        if point.index.root.is_some() {
            return (first, end);
        }
        if !self.is_loose(row, first, end) {
            return (first, end);
        }
        let number = i64::from(point.index.number);
        (
            edge(&self.held, Test::EndsBelow(number - 1), first, end),
            edge(&self.held, Test::BeginsBelow(number + 2), first, end),
        )
    }

    // Whether there are several between two places, and a row has no knot.
    fn is_loose(&self, row: usize, first: usize, end: usize) -> bool
        ensures { OnTrue result (IsLoose row first end self.now.disorder (map said_held self.now.held.items)) }
    {
        self.disorder == 0
            && first < end
            && first + 1 < end
            && row < self.knots.len()
            && self.knots[row] == 0
    }
}
