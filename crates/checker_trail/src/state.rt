ghost use Rattle.std.specs.Prelude.{◌≡◌, None, Some, length};
ghost use Rattle.checker_trail.specs.declared.state.State.{State as Kept};
ghost use Rattle.checker_state.specs.State.{Dead, State as Seen, at_most, has_value, is_dead, is_defined, range_of};
ghost use Rattle.checker_state.specs.State.{unless_empty, with_defined, with_range};
ghost use Rattle.checker_trail.specs.Trail.{Comes, EndsAt, TrailGoes, IsCut, TrailLeaves, Makes, Moves, TakesBack};
ghost use Rattle.checker_known.specs.Knowledge.{Core, core};
ghost use Rattle.checker_trail.specs.Trail.{seen};
ghost use Rattle.checker_trail.specs.Trail.{with_state};
ghost use Rattle.checker_state.specs.View.{said_bound, said_term};
ghost use Rattle.checker_known.specs.View.{said_row};
ghost use Rattle.checker_state.specs.State.{table_of};

use checker_known::{Branch, Change, Knowledge, Row};
use checker_rows::Rows;
use checker_state::{Bound, Held, Term};
use domain::{Domain, Interval, Version};
use memory::Refused;
use std::alloc::Global;

/// What the checker knows at a point of a program. What it did since a mark can be taken back. Where memory ran out, it
/// is short from then on, and nothing more is known of it.
#[derive(Drop)]
pub struct State<'a> {
    pub(crate) table: &'a Rows<'a>,
    pub(crate) alloc: Global,
    pub(crate) known: Knowledge,
    /// What was changed, the last change last.
    pub(crate) trail: Vec<Change>,
    pub(crate) refused: Option<Refused>,
}

/// How far a state had come.
#[derive(Clone, Copy)]
pub struct Mark {
    pub(crate) length: usize,
}

impl<'a> State<'a> {
    /// That memory ran out, where it did.
    pub fn refusal(&self) -> Option<Refused>
        ensures { result ≡ self.now.refused }
    {
        self.refused
    }

    /// Whether no run comes here.
    pub fn is_dead(&self) -> bool
        ensures { result ≡ is_dead (seen self.now) }
    {
        self.known.is_dead
    }

    /// The range of a variable's values.
    pub fn range(&self, root: u32) -> Interval
        ensures { result ≡ range_of (seen self.now) root }
    {
        self.row_range(root as usize)
    }

    /// The range of the values of a row.
    pub fn row_range(&self, row: usize) -> Interval
        ensures { result ≡ range_of (seen self.now) row }
    {
        if self.known.is_dead {
            return Interval::EMPTY;
        }
        self.known.row(row).range
    }

    /// Whether each component of a row is known to be defined by the row itself.
    pub fn is_defined(&self, row: usize) -> bool
        ensures { result ≡ is_defined (seen self.now) row }
    {
        self.known.is_dead || self.known.row(row).is_defined
    }

    /// Whether the variable of a bound, if it has one, is an ordinal that is there and known to be defined.
    pub fn has_value(&self, bound: Bound) -> bool
        ensures { result ≡ has_value (table_of self.now.table.now) (seen self.now) (said_bound bound) }
    {
        self.known.is_dead || self.known.has_value(self.table, bound)
    }

    /// Whether a bound is known to be at most another; at a dead point each is.
    pub fn knows_at_most(&self, left: Term, right: Term) -> bool
        ensures { result ≡ at_most (seen self.now) (said_term left) (said_term right) }
    {
        self.known.is_dead || self.known.le(left, right)
    }

    /// What is known, but where no run comes.
    pub fn known(&self) -> &Knowledge
        ensures { result.now ≡ self.now.known }
    {
        &self.known
    }

    /// What is held beside rows.
    pub fn held(&self) -> &[Held]
        ensures { result.now ≡ self.now.known.held.items }
    {
        self.known.held.as_slice()
    }

    /// The rows of the program.
    pub fn table(&self) -> &'a Rows<'a>
        ensures { result.now ≡ self.now.table.now }
    {
        self.table
    }

    /// The version of certificates by whose rules it is known.
    pub fn rules(&self) -> Version
        ensures { result ≡ self.now.known.rules }
    {
        self.known.rules
    }

    /// Where it gets memory from.
    pub fn alloc(&self) -> Global
        ensures { result ≡ self.now.alloc }
    {
        self.alloc
    }

    /// Each component of a row is defined from here on.
    pub fn define(&mut self, row: usize)
        ensures { Moves (with_defined row) self.old self.new }
    {
        let mut known = self.known.row(row);
        known.is_defined = true;
        self.set_row(row, known);
    }

    /// The values of a row lie in a range from here on.
    pub fn set_range(&mut self, row: usize, range: Interval)
        ensures { Moves (with_range row range) self.old self.new }
    {
        let mut known = self.known.row(row);
        known.range = range;
        self.set_row(row, known);
    }

    /// No run goes on from an empty range.
    pub fn unless_empty(&mut self, range: Interval)
        ensures { Moves (unless_empty range) self.old self.new }
    {
        if range.is_empty() {
            self.die();
        }
    }

    /// No run comes here.
    pub fn die(&mut self)
        ensures { Moves (λ _. Dead) self.old self.new }
    {
        if !self.known.is_dead {
            self.make(&Change::Died);
        }
    }

    /// Something else is known of a row.
    pub(crate) fn set_row(&mut self, row: usize, now: Row)
        ensures { Moves (with_state row (said_row now)) self.old self.new }
    {
        if self.known.is_dead {
            return;
        }
        let was = self.known.row(row);
        if row >= self.known.rows.len() || was.is_same(&now) {
            return;
        }
        self.make(&Change::Row { row, was, now });
    }
}

impl<'a> State<'a> {
    /// Memory ran out, as was refused.
    pub fn run_short(&mut self, refused: Refused)
        ensures short { self.new.refused ≡ Some refused }
        ensures moves { (step : Seen → Seen) → Moves step self.old self.new }
    {
        self.refused = Some(refused);
    }

    /// Makes a change, and puts it on the trail.
    pub(crate) fn make(&mut self, change: &Change)
        ensures { Makes change.now self.old self.new }
    {
        if self.refused.is_some() {
            return;
        }
        if let Err(error) = self.trail.push(*change) {
            self.refused = Some(error.into());
            return;
        }
        if let Err(error) = self.known.make(change) {
            self.refused = Some(error.into());
        }
    }

    /// How far it has come: what is done from here on can be taken back.
    pub fn mark(&self) -> Mark
        ensures { result.length ≡ length self.now.trail.items }
    {
        Mark {
            length: self.trail.len(),
        }
    }

    /// Takes back what was done since a mark, and gives how the way from there ended.
    pub fn leave(&mut self, mark: Mark) -> Branch
        ensures long { self.new.refused ≡ None → self.old.refused ≡ None }
        ensures back { (start : Kept) → mark.length ≡ length start.trail.items → TrailGoes start self.old
            → TrailLeaves start self.old self.new result }
    {
        let is_dead = self.known.is_dead;
        let changes = self.cut(mark);
        for place in (0..changes.len()).rev() {
            self.take_back(&changes[place]);
        }
        Branch { is_dead, changes }
    }

    // The changes since a mark, which stand on the trail no longer.
    fn cut(&mut self, mark: Mark) -> Vec<Change>
        ensures { IsCut mark.length self.old self.new result.items }
    {
        let place = mark.length.min(self.trail.len());
        match self.trail.split_off(place) {
            Ok(changes) => changes,
            Err(error) => {
                self.refused = Some(error.into());
                Vec::new(self.alloc)
            }
        }
    }

    // Takes a change back, which doesn't stand on the trail.
    fn take_back(&mut self, change: &Change)
        ensures { TakesBack change.now self.old self.new }
    {
        if let Err(error) = self.known.make(&change.inverse()) {
            self.refused = Some(error.into());
        }
    }

    /// TrailGoes on as a branch from here ended.
    pub fn go(&mut self, branch: &Branch)
        ensures long { self.new.refused ≡ None → self.old.refused ≡ None }
        ensures comes { (end : Core) → EndsAt (core self.old.known) branch.now end → Comes end self.old self.new }
    {
        for change in &branch.changes {
            self.make(change);
        }
    }
}
