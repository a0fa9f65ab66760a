use certificate::Fact;
use checker_calls::{Bearers, Bindings, are_given, bearers_named};
use checker_loops::gives_facts;
use checker_rows::Span;
use checker_trail::State;
use domain::{Domain, Growth, Interval, Path};
use std::slice;

/// What comes to a place of facts, at a point that runs may come to.
#[derive(Clone, Copy)]
pub enum Coming<'s, 'r, 'b, 'a> {
    /// What is known at the place itself: where a turn of a loop begins or a block ends.
    Here(&'s State<'r>),
    /// What is known where a block is called, for the place where it begins.
    Called {
        state: &'s State<'r>,
        bindings: Bindings<'b, 'a>,
    },
}

impl<'s, 'r, 'b, 'a> Coming<'s, 'r, 'b, 'a> {
    /// A state at the place itself. Proofs cover no variant that is given a borrow of a variable; a call they do.
    pub fn here(state: &'s State<'r>) -> Coming<'s, 'r, 'b, 'a> {
        Coming::Here(state)
    }

    /// A state where a block is called, with its parameters.
    pub fn called(state: &'s State<'r>, bindings: Bindings<'b, 'a>) -> Coming<'s, 'r, 'b, 'a> {
        Coming::Called { state, bindings }
    }

    /// Whether it gives a fact of the place.
    pub fn gives(&self, fact: &Fact) -> bool {
        let facts = slice::from_ref(fact);
        match self {
            Coming::Here(state) => gives_facts(state, facts),
            Coming::Called { state, bindings } => are_given(*bindings, state, facts),
        }
    }

    /// What is known where it comes from.
    pub(crate) fn state(&self) -> &State<'r> {
        match self {
            Coming::Here(state) => state,
            Coming::Called { state, .. } => state,
        }
    }

    /// How a variable grew with a turn of the loop at whose head the place is, if it is known to.
    pub(crate) fn growth(&self, root: u32) -> Option<Growth> {
        Some(self.state().growth(root)?.growth)
    }

    /// The least range of what lies at a path of the place, which names these rows there: the empty range, where it
    /// names nothing.
    pub fn range(&self, path: &Path, rows: Span) -> Interval {
        match self {
            Coming::Here(state) => range_of_rows(state, rows),
            Coming::Called { state, bindings } => {
                match bearers_named(state.table(), *bindings, path) {
                    Bearers::Passed(ranges) => range_of_all(ranges),
                    Bearers::Reached { rows, .. } => range_of_rows(state, rows),
                }
            }
        }
    }
}

fn range_of_rows(state: &State, rows: Span) -> Interval {
    let rows = rows.first..rows.end();
    rows.fold(Interval::EMPTY, |all, row| all.join(&state.row_range(row)))
}

fn range_of_all(ranges: &[Interval]) -> Interval {
    ranges
        .iter()
        .fold(Interval::EMPTY, |all, range| all.join(range))
}
