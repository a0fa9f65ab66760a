ghost use Rattle.std.specs.Prelude.{◌≡◌, map};
ghost use Rattle.checker_rows.specs.View.{numbers};
ghost use Rattle.checker_state.specs.View.{said_form, said_index, said_indexes, said_reach};
ghost use Rattle.checker_trail.specs.Trail.{Moves};
ghost use Rattle.checker_loops.specs.Aliases.{alias_joined, aliases_joined, index_unless_alias, reach_unless_alias};
ghost use Rattle.checker_loops.specs.Aliases.{row_joined, rows_joined, same_types, unless_alias, with_aliases_stored};
ghost use Rattle.checker_ways.specs.View.{said_stored};

use checker_rows::Span;
use checker_state::{Bound, Index, Indexes, Reach};
use checker_trail::State;
use domain::{Domain, Interval};
use types::TypeId;

/// An ordinal or a set that is stored.
#[derive(Clone, Copy)]
pub struct Stored {
    /// The type of its place, if that is there.
    pub type_id: Option<TypeId>,
    /// Where it lies, or its members do.
    pub range: Interval,
}

/// What is known of the aliases of a variable through which others see what is stored (ISO 7185:1990, 6.6.3.3).
pub fn store(state: &mut State, aliases: &[u32], stored: &[Stored])
    ensures { Moves (with_aliases_stored state.old.table.now aliases.now (map said_stored stored.now))
        state.old state.new }
{
    state.change_all(aliases);
    for one in stored {
        join_aliases(state, one, aliases);
    }
}

// Aliases may have what is stored.
fn join_aliases(state: &mut State, stored: &Stored, aliases: &[u32])
    ensures { Moves (aliases_joined state.old.table.now (said_stored stored.now) aliases.now) state.old state.new }
{
    for alias in aliases {
        let rows = state.table().of_variable(*alias);
        join_rows(state, stored, rows);
    }
}

// Components of some rows may have it.
fn join_rows(state: &mut State, stored: &Stored, span: Span)
    ensures { Moves (rows_joined state.old.table.now (said_stored stored.now) (numbers span)) state.old state.new }
{
    for row in span.first..span.end() {
        join_row(state, stored, row);
    }
}

// Those of a row may have it, if they have its type.
fn join_row(state: &mut State, stored: &Stored, row: usize)
    ensures { Moves (row_joined state.old.table.now (said_stored stored.now) row) state.old state.new }
{
    if is_same(stored.type_id, state.table().type_id(row)) {
        let both = state.row_range(row).join(&stored.range);
        state.set_range(row, both);
    }
}

// Whether two types are there and the same (ISO 7185:1990, 6.4.1).
pub(crate) fn is_same(one: Option<TypeId>, other: Option<TypeId>) -> bool
    ensures { result ≡ same_types one other }
{
    match (one, other) {
        (Some(one), Some(other)) => one.same(other),
        _ => false,
    }
}

/// A form, unless its variable is an alias.
pub fn form_unless_alias(aliases: &[u32], form: Option<Bound>) -> Option<Bound>
    ensures { said_form result ≡ unless_alias aliases.now (said_form form) }
{
    let Some(bound) = form else {
        return None;
    };
    for alias in aliases {
        if bound.rests_on(*alias) {
            return None;
        }
    }
    Some(bound)
}

/// What an access reaches, whose indexes count by their forms unless their variables are aliases.
pub fn reach_unless_alias(aliases: &[u32], reach: Reach) -> Reach
    ensures { said_reach result ≡ reach_unless_alias aliases.now (said_reach reach) }
{
    Reach {
        indexes: indexes_unless_alias(aliases, &reach.indexes),
        is_all: reach.is_all,
    }
}

fn indexes_unless_alias(aliases: &[u32], indexes: &Indexes) -> Indexes
    ensures { said_indexes result ≡ map (index_unless_alias aliases.now) (said_indexes indexes.now) }
{
    match indexes {
        Indexes::Entire => Indexes::Entire,
        Indexes::One(index) => Indexes::One(index_unless_alias(aliases, *index)),
        Indexes::Two(one, other) => Indexes::Two(
            index_unless_alias(aliases, *one),
            index_unless_alias(aliases, *other),
        ),
    }
}

fn index_unless_alias(aliases: &[u32], index: Index) -> Index
    ensures { said_index result ≡ index_unless_alias aliases.now (said_index index) }
{
    Index {
        form: form_unless_alias(aliases, index.form),
        range: index.range,
    }
}
