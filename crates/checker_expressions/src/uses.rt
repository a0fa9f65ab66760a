//! The uses of what is accessed, which enter nothing: the states of its rows, and whether its site is closed.
ghost use Rattle.std.specs.Prelude.{◌≡◌, ◌||◌, ◌&&◌, [], ◌∷◌, IfOk, Some, true};
ghost use Rattle.types.specs.Types.{is_structured};
ghost use Rattle.checker_rows.specs.View.{numbers};
ghost use Rattle.typed_tree.specs.Accesses.{origin_of};
ghost use Rattle.checker_state.specs.State.{is_dead};
ghost use Rattle.checker_state.specs.View.{said_reach};
ghost use Rattle.checker_trail.specs.Trail.{Moves, seen};
ghost use Rattle.checker_expressions.specs.View.{FlowGoes, state_of};
ghost use Rattle.checker_expressions.specs.Walk.{all_defined, all_joined, give, is_covered, ranges_of, text_range};
ghost use Rattle.checker_expressions.specs.Walk.{value_use, whole_use, with_used};

use crate::{Flow, held_in, unless_none};
use checker_calls::is_entire;
use checker_rows::Span;
use checker_state::{Known, Reach};
use checker_trail::State;
use domain::{Domain, Interval};
use memory::Refused;
use std::alloc::{AllocError, Global};
use typed_tree::{Access, Scalar};
use types::TypeId;

impl<'a> Flow<'a> {
    /// The use of what is accessed, an ordinal or a set.
    pub(crate) fn used(
        &mut self,
        holds: Scalar,
        access: &Access,
        reach: &Reach,
        defined: u32,
    ) -> Known
        ensures { FlowGoes (value_use holds (origin_of access.now) access.now.selectors.items
            (said_reach reach.now) defined) self.old self.new result }
    {
        let span = self.state.table().accessed(access);
        let known = held_in(holds, joined_ranges(&self.state, span));
        let is_closed = self.covers(reach, span);
        self.open_unless(is_closed, defined);
        define_used(&mut self.state, reach, span);
        unless_none(&mut self.state, &known);
        known
    }

    /// The use of a whole value: the ranges of its components, row by row.
    pub(crate) fn used_whole(
        &mut self,
        type_id: TypeId,
        access: &Access,
        reach: &Reach,
        defined: u32,
    ) -> Vec<Interval>
        ensures { FlowGoes (whole_use type_id (origin_of access.now) access.now.selectors.items
            (said_reach reach.now) defined) self.old self.new result.items }
    {
        let span = self.state.table().accessed(access);
        let ranges = self.ranges(span);
        let is_closed = self.covers_whole(type_id, reach, span);
        self.open_unless(is_closed, defined);
        define_used(&mut self.state, reach, span);
        ranges
    }

    /// Whether what is reached of a whole value is known to be defined.
    fn covers_whole(&self, type_id: TypeId, reach: &Reach, span: Span) -> bool
        ensures { result ≡ (is_dead (state_of self.now) || (is_structured self.now.state.table.now.types type_id
            && is_covered self.now.state.table.now (state_of self.now) (said_reach reach.now) (numbers span))) }
    {
        self.state.is_dead()
            || self.state.table().is_structured(type_id) && self.covers(reach, span)
    }

    /// Whether what is reached in each row is known to be defined.
    fn covers(&self, reach: &Reach, span: Span) -> bool
        ensures { result
            ≡ is_covered self.now.state.table.now (state_of self.now) (said_reach reach.now) (numbers span) }
    {
        for row in span.first..span.end() {
            if !self.state.gives_reached(reach, row) {
                return false;
            }
        }
        true
    }

    /// The ranges of rows.
    fn ranges(&mut self, span: Span) -> Vec<Interval>
        ensures { FlowGoes (λ context state. give (ranges_of state (numbers span)) context state)
            self.old self.new result.items }
    {
        let alloc = *self.open_ids.allocator();
        match ranges_of(alloc, &self.state, span) {
            Ok(ranges) => ranges,
            Err(error) => self.no_ranges(error.into()),
        }
    }

    /// The range of the characters of a string.
    pub(crate) fn text(&mut self, characters: &[u8]) -> Vec<Interval>
        ensures { FlowGoes (give (text_range characters.now ∷ [])) self.old self.new result.items }
    {
        let alloc = *self.open_ids.allocator();
        match Vec::from_slice(alloc, &[text_range(characters)]) {
            Ok(ranges) => ranges,
            Err(error) => self.no_ranges(error.into()),
        }
    }

    // Memory ran out.
    fn no_ranges(&mut self, refused: Refused) -> Vec<Interval>
        ensures { self.new.state.refused ≡ Some refused }
    {
        self.state.run_short(refused);
        Vec::new(*self.open_ids.allocator())
    }
}

fn ranges_of(alloc: Global, state: &State, span: Span) -> Result<Vec<Interval>, AllocError>
    ensures { IfOk result (λ ranges. ranges.items ≡ ranges_of (seen state.now) (numbers span)) }
{
    let mut ranges = Vec::new(alloc);
    for row in span.first..span.end() {
        ranges.push(state.row_range(row))?;
    }
    Ok(ranges)
}

/// A range that has the numbers of the ranges of all rows.
fn joined_ranges(state: &State, span: Span) -> Interval
    ensures { result ≡ all_joined (ranges_of (seen state.now) (numbers span)) }
{
    let mut range = Interval::EMPTY;
    for row in (span.first..span.end()).rev() {
        range = state.row_range(row).join(&range);
    }
    range
}

/// Each row is defined from here on, where all of it is reached.
fn define_used(state: &mut State, reach: &Reach, span: Span)
    ensures { Moves (with_used (said_reach reach.now) (numbers span)) state.old state.new }
{
    if is_entire(reach) {
        define_all(state, span);
    }
}

fn define_all(state: &mut State, span: Span)
    ensures { Moves (all_defined (numbers span)) state.old state.new }
{
    for row in span.first..span.end() {
        state.define(row);
    }
}

/// The range of the characters of a string.
fn text_range(characters: &[u8]) -> Interval
    ensures { result ≡ text_range characters.now }
{
    let mut range = Interval::EMPTY;
    for i in (0..characters.len()).rev() {
        let character = i32::from(characters[i]);
        range = Interval::between(character, character).join(&range);
    }
    range
}
