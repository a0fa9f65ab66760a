//! How variables grow with the turns of for statements, as far as that is known: where they begin, and what turns add.

use crate::outcome::Outcome;
use certificate::Fact;
use checker_rows::Rows;
use domain::{Domain, Growth, Interval};

/// How often what turns add moves, before a growth falls.
const MOST_MOVES: u8 = 11;

/// A growth of a variable of which nothing is known yet.
pub fn growth_of(root: u32) -> Fact {
    let growth = Growth {
        first: 1,
        first_step: 0,
        last: 0,
        last_step: 0,
    };
    Fact::Grows { root, growth }
}

/// Where it begins: nowhere, where nothing came.
pub(crate) fn begun(growth: &Growth) -> Interval {
    Interval::between(growth.first, growth.last)
}

/// What turns add.
pub(crate) fn steps(growth: &Growth) -> Interval {
    Interval::between(growth.first_step, growth.last_step)
}

/// What a turn added, behind which a variable grows so; nothing is told where that are no numbers of a growth.
pub(crate) fn added(growth: &Growth, turned: &Growth) -> Interval {
    let first = i64::from(turned.first) - i64::from(growth.first);
    let last = i64::from(turned.last) - i64::from(growth.last);
    match (i32::try_from(first), i32::try_from(last)) {
        (Ok(first), Ok(last)) => Interval::between(first, last),
        _ => Interval::EMPTY,
    }
}

/// A range comes to where it begins.
pub(crate) fn begin(growth: &mut Growth, came: Interval) -> Outcome {
    let known = begun(growth);
    if came.leq(&known) {
        return Outcome::Stays;
    }
    moved(set(&mut growth.first, &mut growth.last, known.join(&came)))
}

/// A turn ends. What the first one adds that adds anything is what all are taken to add, up to the next that adds more.
pub(crate) fn turn(growth: &mut Growth, moves: &mut u8, turned: Option<Growth>) -> Outcome {
    let Some(turned) = turned else {
        return fallen(*moves);
    };
    if turned.is_within_next(growth) {
        return Outcome::Stays;
    }
    let mut added = added(growth, &turned);
    if added.is_empty() || *moves == MOST_MOVES {
        return fallen(*moves);
    }
    if 0 < *moves {
        added = steps(growth).join(&added);
    }
    *moves = moves.saturating_add(1);
    moved(set(&mut growth.first_step, &mut growth.last_step, added))
}

// A growth that never moved says what the range of its variable does, which comes from outside.
fn fallen(moves: u8) -> Outcome {
    if moves == 0 {
        Outcome::Fades
    } else {
        Outcome::Falls
    }
}

fn moved(is_set: bool) -> Outcome {
    if is_set {
        Outcome::Moves
    } else {
        Outcome::Falls
    }
}

/// Two numbers of a growth are the ends of a range from here on, if that has such. Whether it has.
pub(crate) fn set(first: &mut i32, last: &mut i32, range: Interval) -> bool {
    if range.is_empty() || !range.leq(&Interval::INTEGER) {
        return false;
    }
    match (i32::try_from(range.first()), i32::try_from(range.last())) {
        (Ok(one), Ok(other)) => {
            *first = one;
            *last = other;
            true
        }
        _ => false,
    }
}

/// Of the growths and the ranges of the same variables, at the head of a for that finishes so many turns at most, those
/// are dropped that say no more than the others.
pub(crate) fn settle(facts: &mut Vec<Fact>, rows: &Rows, most: i64) {
    for place in (0..facts.len()).rev() {
        if let Some(idle) = idle(facts, rows, place, most) {
            take_out(facts, idle);
        }
    }
}

// The place of what says no more, if a growth stands at a place: of that, or of the range of its variable.
fn idle(facts: &[Fact], rows: &Rows, place: usize, most: i64) -> Option<usize> {
    let Some(Fact::Grows { root, growth }) = facts.get(place) else {
        return None;
    };
    let limits = rows.row_limits(*root as usize);
    let reach = growth.reach(most).meet(&limits);
    let beside = range_of(facts, *root);
    let range = beside.map_or(limits, |(_, range)| range);
    if begun(growth).is_empty() || range.leq(&reach) {
        return Some(place);
    }
    match beside {
        Some((beside, range)) if reach.leq(&range) => Some(beside),
        _ => None,
    }
}

// The range of a variable among facts, with its place.
fn range_of(facts: &[Fact], root: u32) -> Option<(usize, Interval)> {
    let mut places = facts.iter().enumerate();
    places.find_map(|(place, fact)| match fact {
        Fact::Range { path, range } if path.root == root => Some((place, *range)),
        _ => None,
    })
}

/// Takes out what stands at a place, which the last one takes.
pub(crate) fn take_out<T: Drop>(list: &mut Vec<T>, place: usize) {
    if place < list.len() {
        let _fallen = list.swap_remove(place);
    }
}
