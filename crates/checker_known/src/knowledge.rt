ghost use Rattle.std.specs.Prelude.{◌≡◌, OnOk, map, true};
ghost use Rattle.std.specs.Bool.{OnTrue};
ghost use Rattle.checker_state.specs.Growths.{row_outside};
ghost use Rattle.checker_state.specs.View.{said_held};
ghost use Rattle.checker_known.specs.Knots.{AreCounted};
ghost use Rattle.checker_known.specs.Order.{disorder_of};
ghost use Rattle.checker_known.specs.Resting.{AreListed};
ghost use Rattle.checker_known.specs.View.{AreGrowing, depth_of, said_row};

use crate::knots::{knot_at, knots_around, recount};
use crate::{Change, Resting, wrong_around, wrong_at};
use checker_state::{Growing, Held, is_same_growth};
use domain::{Interval, Version};
use std::alloc::{AllocError, AllocFailed};

// The deepest for statement of which it is counted how many variables grow with its turns: those of a deeper one are
// counted with it.
pub(crate) const DEEPEST: usize = 128;

/// What is known of a row.
#[derive(Clone, Copy)]
pub struct Row {
    /// Where the values of its components lie.
    pub range: Interval,
    /// Whether each is defined.
    pub is_defined: bool,
    /// How the variable of the row grows with the turns of a for statement.
    pub growth: Option<Growing>,
}

impl Row {
    /// That of a row that isn't there.
    pub const NONE: Row = Row {
        range: Interval::EMPTY,
        is_defined: false,
        growth: None,
    };

    /// Whether the same is known of two rows.
    pub fn is_same(&self, other: &Row) -> bool
        ensures { OnTrue result (self.now ≡ other.now) }
    {
        self.range.first() == other.range.first()
            && self.range.last() == other.range.last()
            && self.is_defined == other.is_defined
            && is_same_growth(self.growth, other.growth)
    }

    // How deep the for statement is taken to stand with whose turns its variable grows.
    fn depth(&self) -> Option<usize>
        ensures { result ≡ depth_of self.now.growth }
    {
        match self.growth {
            None => None,
            Some(growing) => Some(growing.depth.min(DEEPEST)),
        }
    }
}

/// What is known at a point of a program.
#[derive(Drop)]
pub struct Knowledge {
    /// What is known of rows, by the number of the row.
    pub rows: Vec<Row>,
    /// By how deep a for statement stands, of how many rows at most the variable grows with its turns.
    pub growing: Vec<usize>,
    /// What is held, in its order, each once, but where bounds are about to take the places of variables.
    pub held: Vec<Held>,
    /// How many of these don't come before the next.
    pub disorder: usize,
    /// By the number of a row, how many of its stretches at most don't go on from the one before.
    pub knots: Vec<usize>,
    /// What is held, by the variables on which it rests.
    pub resting: Resting,
    /// `true`: no run comes here.
    pub is_dead: bool,
    /// The version of certificates by whose rules it is known.
    pub rules: Version,
    pub ghost growing_counted: { AreGrowing growing.items (map said_row rows.items) },
    pub ghost counted: { disorder ≡ disorder_of (map said_held held.items) },
    pub ghost knots_counted: { AreCounted knots.items (map said_held held.items) },
    pub ghost all_listed: { resting.is_whole ≡ true → AreListed resting.lists.items (map said_held held.items) },
}

impl Knowledge {
    ghost use Rattle.std.specs.Prelude.{slice_set};
    ghost use Rattle.std.specs.List.{insert, remove};
    ghost use Rattle.checker_state.specs.State.{row_at};
    ghost use Rattle.checker_known.specs.Knowledge.{AllGrew, core, made, viewed};

    /// What is known of a row.
    pub fn row(&self, row: usize) -> Row
        ensures { said_row result ≡ row_at (viewed (core self.now)) row }
    {
        match self.rows.get(row) {
            None => Row::NONE,
            Some(known) => *known,
        }
    }

    /// Whether variables are known to grow, if they do, with the turns of for statements alone that stand round one so
    /// deep.
    pub fn grows_outside(&self, depth: usize) -> bool
        ensures { OnTrue result
            (map (row_outside depth) (viewed (core self.now)).rows ≡ (viewed (core self.now)).rows) }
    {
        let counted = self.growing.len();
        if counted <= DEEPEST {
            return false;
        }
        for place in depth.min(DEEPEST)..counted {
            if self.growing[place] > 0 {
                return false;
            }
        }
        true
    }

    /// Makes a change.
    ///
    /// # Errors
    /// No memory for it, or a list was refused its growth, here or before.
    pub fn make(&mut self, change: &Change) -> Result<(), AllocError>
        ensures makes { OnOk result (core self.new ≡ made change.now (core self.old)) }
        ensures told { OnOk result (AllGrew self.old × AllGrew self.new) }
    {
        match change {
            Change::Row { row, now, .. } => self.set_row(*row, *now),
            Change::Inserted { place, held } => self.insert(*place, *held)?,
            Change::Removed { place, .. } => self.remove(*place),
            Change::Replaced { place, now, .. } => self.replace(*place, *now),
            Change::Died => self.is_dead = true,
            Change::Revived => self.is_dead = false,
        }
        self.resting.end()
    }

    fn set_row(&mut self, row: usize, now: Row)
        ensures sets { core self.new ≡ record (core self.old) { rows = slice_set self.old.rows.items row now } }
        ensures told { AllGrew self.new → AllGrew self.old }
    {
        if row < self.rows.len() {
            let gone = (self.rows[row].depth(), None);
            self.rows[row] = now;
            recount(&mut self.growing, gone, (now.depth(), None));
        }
    }

    fn insert(&mut self, place: usize, held: Held) -> Result<(), AllocFailed<Held>>
        ensures inserts { OnOk result
            (core self.new ≡ record (core self.old) { held = insert self.old.held.items place held }) }
        ensures told { AllGrew self.new → AllGrew self.old }
    {
        let place = place.min(self.held.len());
        let was = wrong_at(&self.held, place);
        let gone = (knot_at(&self.held, place), None);
        match self.held.insert(place, held) {
            Ok(()) => {
                self.disorder = self.disorder - was + wrong_around(&self.held, place);
                recount(&mut self.knots, gone, knots_around(&self.held, place));
                self.resting.list(&held);
                Ok(())
            }
            Err(error) => Err(error),
        }
    }

    fn remove(&mut self, place: usize)
        ensures removes { core self.new ≡ record (core self.old) { held = remove self.old.held.items place } }
        ensures told { AllGrew self.new → AllGrew self.old }
    {
        if place < self.held.len() {
            let was = wrong_around(&self.held, place);
            let gone = knots_around(&self.held, place);
            self.held.remove(place);
            self.disorder = self.disorder - was + wrong_at(&self.held, place);
            recount(&mut self.knots, gone, (knot_at(&self.held, place), None));
        }
    }

    fn replace(&mut self, place: usize, now: Held)
        ensures replaces { core self.new ≡ record (core self.old) { held = slice_set self.old.held.items place now } }
        ensures told { AllGrew self.new → AllGrew self.old }
    {
        if place < self.held.len() {
            let was = wrong_around(&self.held, place);
            let gone = knots_around(&self.held, place);
            self.held[place] = now;
            self.disorder = self.disorder - was + wrong_around(&self.held, place);
            recount(&mut self.knots, gone, knots_around(&self.held, place));
            self.resting.list(&now);
        }
    }
}
