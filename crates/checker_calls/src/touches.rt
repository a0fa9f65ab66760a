ghost use Rattle.std.specs.Prelude.{◌≡◌, IfOk, map};
ghost use Rattle.std.specs.List.{list_any};
ghost use Rattle.checker_rows.specs.Rows.{rows_of, type_at};
ghost use Rattle.checker_state.specs.Changes.{bound_rests_on, span_rests_on};
ghost use Rattle.checker_state.specs.Knows.{rests_on_any};
ghost use Rattle.checker_state.specs.Loops.{is_among};
ghost use Rattle.checker_state.specs.View.{inner_spans, said_bound, said_held, said_span};
ghost use Rattle.checker_calls.specs.Exit.{all_joined, is_steady, range_behind};
ghost use Rattle.checker_calls.specs.ExitView.{AreRoots, AreRows, AreTypes, added, joined_with, just, met};
ghost use Rattle.checker_calls.specs.ExitView.{range_of_type, said_change};

use crate::{Change, Ranges, is_entire};
use checker_rows::Rows;
use checker_state::{Bound, Held, Span};
use domain::{Domain, Interval};
use std::alloc::{AllocError, Global};
use std::collections::HashSet;
use std::marker::Model;
use types::TypeId;

/// What a call touches.
#[derive(Drop)]
pub(crate) struct Touches {
    // The variables that it may change, and their aliases.
    touched: Vec<u32>,
    // The leaves that it may change: what is asked of them is found by numbers below.
    changes: Vec<Change>,
    // The same variables, each found by its number.
    roots: HashSet<u32>,
    // Where the values lie of each row of which all is changed, and those of each type that is.
    rows: Ranges,
    types: Ranges,
}

impl Model for Touches {
    ghost use Rattle.std.specs.Prelude.{map};
    ghost use Rattle.checker_calls.specs.Exit.{Touches};
    ghost use Rattle.checker_calls.specs.ExitView.{AreRoots, AreRows, AreTypes, said_change};

    ghost Value = { Touches };

    ghost view = { λ touches. record {
      touched = touches.touched.items;
      changes = map said_change touches.changes.items;
    } };

    ghost invariant = { λ touches. AreRoots touches.touched.items touches.roots
        × (AreRows (map said_change touches.changes.items) touches.rows
        × AreTypes (map said_change touches.changes.items) touches.types) };
}

impl Touches {
    /// These variables and leaves.
    pub(crate) fn of(
        alloc: Global,
        touched: Vec<u32>,
        changes: Vec<Change>,
    ) -> Result<Touches, AllocError>
        ensures { IfOk result (λ touches. touches
            ≡ record { touched = touched.items; changes = map said_change changes.items }) }
    {
        let roots = all_roots(alloc, &touched)?;
        let rows = all_rows(alloc, &changes)?;
        let types = all_types(alloc, &changes)?;
        Ok(Touches {
            touched,
            changes,
            roots,
            rows,
            types,
        })
    }

    /// The variables.
    pub(crate) fn touched(&self) -> &[u32]
        ensures { result.now ≡ self.now.touched }
    {
        self.touched.as_slice()
    }

    /// Whether a variable is one of them.
    pub(crate) fn has(&self, root: u32) -> bool
        ensures { result ≡ is_among root self.now.touched }
    {
        self.roots.contains(&root)
    }

    /// Whether a variable is none of them, or changed just as it is.
    pub(crate) fn is_steady(&self, root: u32) -> bool
        ensures { result ≡ is_steady self.now root }
    {
        !self.has(root) || self.rows.at(root as usize).is_some()
    }

    /// Whether a bound rests on one of them.
    pub(crate) fn shifts_bound(&self, bound: Bound) -> bool
        ensures { result ≡ list_any (λ root. bound_rests_on root (said_bound bound)) self.now.touched }
    {
        match bound.root {
            None => false,
            Some(root) => self.has(root),
        }
    }

    /// Whether what is held does.
    pub(crate) fn shifts_held(&self, held: &Held) -> bool
        ensures { result ≡ rests_on_any self.now.touched (said_held held.now) }
    {
        let (span, inner) = held.ends();
        self.shifts_span(span) || self.shifts_inner(inner)
    }

    fn shifts_span(&self, span: Span) -> bool
        ensures { result ≡ list_any (λ root. span_rests_on root (said_span span)) self.now.touched }
    {
        self.shifts_bound(span.first) || self.shifts_bound(span.last)
    }

    fn shifts_inner(&self, span: Option<Span>) -> bool
        ensures { result ≡ list_any (λ root. list_any (span_rests_on root) (inner_spans span)) self.now.touched }
    {
        match span {
            None => false,
            Some(span) => self.shifts_span(span),
        }
    }

    /// Where the values of a row lie behind the call that lay in a range: by the changes of just this row, or else by
    /// all.
    pub(crate) fn behind(&self, rows: &Rows, row: usize, range: Interval) -> Interval
        ensures { result ≡ range_behind (type_at (rows_of rows.now) row) self.now.changes
            (just row self.now.changes) range }
    {
        match self.rows.at(row) {
            None => self.joined(rows.type_id(row), range),
            Some(known) => known,
        }
    }

    // A range with the values of those of a type that are changed.
    fn joined(&self, type_id: Option<TypeId>, range: Interval) -> Interval
        ensures { result ≡ all_joined type_id self.now.changes range }
    {
        joined_with(range_of_type(&self.types, type_id), range)
    }
}

// The variables of a list, each to be found by its number.
fn all_roots(alloc: Global, list: &[u32]) -> Result<HashSet<u32>, AllocError>
    ensures { IfOk result (λ roots. AreRoots list.now roots) }
{
    let mut roots = HashSet::new(alloc);
    for root in list {
        roots.insert(*root)?;
    }
    Ok(roots)
}

// Where the values lie of each row of which all is changed.
fn all_rows(alloc: Global, changes: &[Change]) -> Result<Ranges, AllocError>
    ensures { IfOk result (λ rows. AreRows (map said_change changes.now) rows) }
{
    let mut rows = Ranges::new(alloc);
    for change in changes {
        if is_entire(&change.reach) {
            let all = met(rows.at(change.row), change.range);
            rows.set(change.row, all)?;
        }
    }
    Ok(rows)
}

// A range beside one that is known, if one is.
fn met(known: Option<Interval>, range: Interval) -> Interval
    ensures { result ≡ met known range }
{
    match known {
        None => range,
        Some(known) => known.meet(&range),
    }
}

// Where the values lie of each type of which some are changed.
fn all_types(alloc: Global, changes: &[Change]) -> Result<Ranges, AllocError>
    ensures { IfOk result (λ types. AreTypes (map said_change changes.now) types) }
{
    let mut types = Ranges::new(alloc);
    for change in changes {
        if let Some(id) = change.type_id {
            let all = added(types.at(id.index), change.range);
            types.set(id.index, all)?;
        }
    }
    Ok(types)
}

// Values that are known, if some are, and those of a range.
fn added(known: Option<Interval>, range: Interval) -> Interval
    ensures { result ≡ added known range }
{
    match known {
        None => range,
        Some(known) => known.join(&range),
    }
}

// The values of a range and those that are known, if some are.
fn joined_with(known: Option<Interval>, range: Interval) -> Interval
    ensures { result ≡ joined_with known range }
{
    match known {
        None => range,
        Some(known) => range.join(&known),
    }
}

// Those of a type, if it is there.
fn range_of_type(types: &Ranges, type_id: Option<TypeId>) -> Option<Interval>
    ensures { result ≡ range_of_type types.now type_id }
{
    types.at(type_id?.index)
}
