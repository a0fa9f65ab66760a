ghost use Rattle.std.specs.Prelude.{◌≡◌, ◌++◌, IfOk, None, length, map};
ghost use Rattle.std.specs.Bool.{OnTrue};
ghost use Rattle.checker_trail.specs.declared.state.State.{State as Kept};
ghost use Rattle.checker_known.specs.Knowledge.{core, viewed};
ghost use Rattle.checker_known.specs.Told.{row_changed, rows_changed, said_at};
ghost use Rattle.checker_state.specs.View.{said_held};
ghost use Rattle.checker_trail.specs.Shorter.{Goes, IsStraight, Shortens, at_row};
ghost use Rattle.checker_trail.specs.Trail.{TrailGoes};

use crate::{Mark, State};
use checker_known::{Change, Knowledge, Row};
use checker_state::Held;
use domain::Domain;
use std::alloc::{AllocError, AllocFailed, Global};
use std::cmp::Ordering;

/// A way is made shorter if more of its changes don't stand any longer than so many, and one for each that is held.
const LONG: usize = 64;

impl<'a> State<'a> {
    /// The way since a mark is made shorter, if it is long: it changes each row once from here on, and what is held
    /// where that isn't held at both ends. So ways that meet inside of others make these no longer than what is known.
    pub(crate) fn shorten(&mut self, mark: Mark)
        ensures long { self.new.refused ≡ None → self.old.refused ≡ None }
        ensures shortens { (start : Kept) → mark.length ≡ length start.trail.items → TrailGoes start self.old
            → Shortens start self.old self.new }
    {
        if self.known.is_dead || !self.is_long(mark) || mark.length > self.trail.len() {
            return;
        }
        let rows = match values(&self.known, self.alloc, &self.trail[mark.length..]) {
            Ok(rows) => rows,
            Err(error) => return self.run_short(error.into()),
        };
        let held = match Vec::from_slice(self.alloc, &self.known.held) {
            Ok(held) => held,
            Err(error) => return self.run_short(error.into()),
        };
        let here = self.leave(mark);
        if !self.goes_straight(&rows, &held) {
            let _other = self.leave(mark);
            self.go(&here);
        }
    }

    // Whether many changes since a mark don't stand any longer. A way that changes many rows once isn't long.
    fn is_long(&self, mark: Mark) -> bool {
        if self.trail.len().saturating_sub(mark.length) <= LONG {
            return false;
        }
        let mut many: usize = 0;
        for change in &self.trail[mark.length..] {
            if !self.stands(change) {
                many = many.saturating_add(1);
            }
        }
        many > LONG.saturating_add(self.known.held.len())
    }

    // Whether a change stands: one of a row, if that is its range. Of what came to be held as much is let stand as is
    // held.
    fn stands(&self, change: &Change) -> bool {
        match change {
            Change::Row { row, now, .. } => {
                let known = self.known.row(*row);
                known.range.leq(&now.range) && now.range.leq(&known.range)
            }
            Change::Inserted { .. } | Change::Replaced { .. } => false,
            Change::Removed { .. } | Change::Died | Change::Revived => true,
        }
    }

    // Goes on to where this is known of rows and this is held. Whether that is so then.
    fn goes_straight(&mut self, rows: &[(usize, Row)], held: &[Held]) -> bool
        ensures goes { Goes self.old self.new }
        ensures straight { OnTrue result (IsStraight rows.now held.now self.old self.new) }
    {
        let kept = match are_among(self.alloc, &self.known.held, held) {
            Ok(kept) => kept,
            Err(error) => {
                self.run_short(error.into());
                return false;
            }
        };
        self.set_rows(rows);
        self.retain(&kept);
        self.hold_all(held);
        !self.known.is_dead && are_same(&self.known.held, held)
    }
}

// What is known of the rows that are changed.
fn values(
    known: &Knowledge,
    alloc: Global,
    changes: &[Change],
) -> Result<Vec<(usize, Row)>, AllocError>
    ensures { IfOk result (λ found. map said_at found.items
        ≡ map (at_row (viewed (core known.now))) (rows_changed changes.now)) }
{
    let mut found = Vec::new(alloc);
    for change in changes {
        value(known, change, &mut found)?;
    }
    Ok(found)
}

// Puts what is known of a row behind others, if a change is one of a row.
fn value(
    known: &Knowledge,
    change: &Change,
    found: &mut Vec<(usize, Row)>,
) -> Result<(), AllocFailed<(usize, Row)>>
    ensures { IfOk result (λ _. map said_at found.new.items
        ≡ map said_at found.old.items ++ map (at_row (viewed (core known.now))) (row_changed change.now)) }
{
    match change {
        Change::Row { row, .. } => found.push((*row, known.row(*row))),
        _ => Ok(()),
    }
}

// Whether each is among others, both in their order.
fn are_among(alloc: Global, held: &[Held], others: &[Held]) -> Result<Vec<bool>, AllocError> {
    let mut among = Vec::new(alloc);
    let mut place = 0;
    for one in held {
        place = first_from(others, one, place);
        among.push(place < others.len() && one.is_same(&others[place]))?;
    }
    Ok(among)
}

// The first place from one on at which one stands that doesn't come before another.
fn first_from(held: &[Held], one: &Held, from: usize) -> usize {
    for place in from..held.len() {
        match one.compare(&held[place]) {
            Ordering::Greater => {}
            _ => return place,
        }
    }
    held.len()
}

// Whether the same is held.
fn are_same(held: &[Held], others: &[Held]) -> bool
    ensures { OnTrue result (map said_held held.now ≡ map said_held others.now) }
{
    if held.len() != others.len() {
        return false;
    }
    for place in 0..held.len() {
        if !held[place].is_same(&others[place]) {
            return false;
        }
    }
    true
}
