ghost use Rattle.std.specs.Prelude.{◌≡◌, ◌<◌, ◌∷◌, [], IfOk, Some, length, map, slice_get};
ghost use Rattle.checker_state.specs.Changes.{assigned};
ghost use Rattle.checker_state.specs.Stores.{all_stored};
ghost use Rattle.checker_state.specs.View.{said_form, said_reach};
ghost use Rattle.checker_trail.specs.Trail.{Moves};
ghost use Rattle.checker_loops.specs.Aliases.{reach_unless_alias, unless_alias, with_aliases_stored};
ghost use Rattle.checker_ways.specs.View.{said_stored};
ghost use Rattle.cert_checker.specs.View.{row_stored};
ghost use Rattle.cert_checker.specs.StoresView.{said_stores};

use checker_rows::{Rows, Span};
use checker_state::{Bound, Reach};
use checker_trail::State;
use checker_ways::aliases;
use checker_ways::aliases::{Stored, form_unless_alias, reach_unless_alias};
use domain::Interval;
use std::alloc::{AllocError, Global};

/// The rows that get values, each with the range of its values.
#[derive(Clone, Copy)]
pub(crate) enum Stores<'a> {
    /// Each row has the same range.
    Alike { rows: Span, range: Interval },
    /// Each has its own, as far as there are both.
    Paired { rows: Span, ranges: &'a [Interval] },
}

impl<'a> Stores<'a> {
    /// Values are stored to what is reached in these rows, and aliases may have them: an index counts no more where its
    /// variable is one of them.
    pub(crate) fn make(&self, state: &mut State, aliases: &[u32], reach: Reach)
        ensures { Moves (λ known. all_stored (reach_unless_alias aliases.now (said_reach reach)) (said_stores self.now)
            (with_aliases_stored state.old.table.now aliases.now
            (map (row_stored state.old.table.now) (said_stores self.now)) known)) state.old state.new }
    {
        self.show(state, aliases);
        self.store(state, &reach_unless_alias(aliases, reach));
    }

    /// Aliases may have what is stored.
    fn show(&self, state: &mut State, aliases: &[u32])
        ensures { Moves (with_aliases_stored state.old.table.now aliases.now
            (map (row_stored state.old.table.now) (said_stores self.now))) state.old state.new }
    {
        if aliases.is_empty() {
            return;
        }
        match self.in_rows(state.alloc(), state.table()) {
            Ok(stored) => aliases::store(state, aliases, &stored),
            Err(error) => state.run_short(error.into()),
        }
    }

    /// Ordinals and sets of the types of these rows.
    fn in_rows(&self, alloc: Global, rows: &Rows) -> Result<Vec<Stored>, AllocError>
        ensures { IfOk result (λ stored. map said_stored stored.items
            ≡ map (row_stored rows.now) (said_stores self.now)) }
    {
        let mut stored = Vec::new(alloc);
        for place in 0..self.count() {
            let (row, range) = self.at(place);
            stored.push(Stored {
                type_id: rows.type_id(row),
                range,
            })?;
        }
        Ok(stored)
    }

    /// Values are stored to what is reached in these rows.
    fn store(&self, state: &mut State, reach: &Reach)
        ensures { Moves (all_stored (said_reach reach.now) (said_stores self.now)) state.old state.new }
    {
        for place in 0..self.count() {
            let (row, range) = self.at(place);
            state.store(reach, row, range);
        }
    }

    /// How many rows get values.
    fn count(&self) -> usize
        ensures { result ≡ length (said_stores self.now) }
    {
        match self {
            Stores::Alike { rows, .. } => rows.count,
            Stores::Paired { rows, ranges } => rows.count.min(ranges.len()),
        }
    }

    /// The row at a place among them, with its range.
    fn at(&self, place: usize) -> (usize, Interval)
        requires { place < length (said_stores self.now) }
        ensures { slice_get (said_stores self.now) place ≡ Some result }
    {
        match self {
            Stores::Alike { rows, range } => (rows.first + place, *range),
            Stores::Paired { rows, ranges } => (rows.first + place, range_at(ranges, place)),
        }
    }
}

fn range_at(ranges: &[Interval], place: usize) -> Interval
    requires { place < length ranges.now }
    ensures { slice_get ranges.now place ≡ Some result }
{
    ranges[place]
}

/// A variable gets a value of a range, perhaps of a bound form, and perhaps by a step; aliases may have it.
pub(crate) fn assign(
    state: &mut State,
    aliases: &[u32],
    root: u32,
    range: Interval,
    form: Option<Bound>,
    step: Option<Interval>,
)
    ensures { Moves (λ known. assigned root range (unless_alias aliases.now (said_form form)) step
        (with_aliases_stored state.old.table.now aliases.now
        (row_stored state.old.table.now (root, range) ∷ []) known)) state.old state.new }
{
    let stored = Stored {
        type_id: state.table().type_id(root as usize),
        range,
    };
    aliases::store(state, aliases, &[stored]);
    state.assign(root, range, form_unless_alias(aliases, form), step);
}
