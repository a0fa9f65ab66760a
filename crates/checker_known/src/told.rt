ghost use Rattle.std.specs.Prelude.{◌≡◌, ◌++◌, ◌≤◌, Contains, IfOk, filter, length, map};
ghost use Rattle.std.specs.Bool.{OnTrue};
ghost use Rattle.checker_state.specs.State.{gives, table_of};
ghost use Rattle.checker_state.specs.View.{said_held};
ghost use Rattle.checker_known.specs.Order.{disorder_of};

use crate::{Branch, Change, Knowledge, Row};
use checker_rows::Rows;
use checker_state::{Held, joined_growth};
use domain::Domain;
use std::alloc::{AllocError, Global};
use std::cmp::Ordering;

/// What is known of a row at the end of a way, and whether each of its components is known to be defined there.
#[derive(Clone, Copy)]
pub struct Arrival {
    row: usize,
    known: Row,
    is_whole: bool,
}

/// What the end of a way tells of what is held elsewhere and of some rows.
#[derive(Drop)]
pub struct Told {
    /// Whether it gives what is held elsewhere, one after another.
    pub kept: Vec<bool>,
    /// What is held there; some of what is given elsewhere may be left out.
    pub held: Vec<Held>,
    /// What is known of the rows there.
    pub rows: Vec<Arrival>,
}

/// What is held at the end of a way, to be asked at that of another.
#[derive(Drop)]
pub struct Asked {
    held: Vec<Held>,
    /// How many of these don't come before the next.
    disorder: usize,
    ghost counted: { disorder ≡ disorder_of (map said_held held.items) },
}

impl Asked {
    ghost use Rattle.checker_known.specs.Knowledge.{kept_by};

    // Whether one is among those that stay, at a place, and these stand in their order.
    fn stays(&self, kept: &[bool], one: &Held, place: usize) -> bool
        ensures order { OnTrue result (self.now.disorder ≡ 0) }
        ensures there { OnTrue result
            (Contains (kept_by kept.now (map said_held self.now.held.items)) (said_held one.now)) }
    {
        if self.disorder > 0 || place >= kept.len() || place >= self.held.len() {
            return false;
        }
        kept[place] && one.is_same(&self.held[place])
    }
}

impl Knowledge {
    ghost use Rattle.checker_known.specs.Told.{AreTold, ToldLeaves, arrival_at, joined_at, row_changed, rows_changed};
    ghost use Rattle.checker_known.specs.Told.{said_at};
    ghost use Rattle.checker_known.specs.Knowledge.{core, kept_by, viewed};
    ghost use Rattle.checker_known.specs.View.{said_row};

    /// What is held, to be asked elsewhere.
    pub fn asked(&self, alloc: Global) -> Result<Asked, AllocError>
        ensures { IfOk result (λ asked. asked.held.items ≡ self.now.held.items) }
    {
        let held = Vec::from_slice(alloc, &self.held)?;
        Ok(Asked {
            held,
            disorder: self.disorder,
        })
    }

    /// What is told of what is held elsewhere, and of the rows that two ways changed.
    pub fn tell(
        &self,
        alloc: Global,
        table: &Rows,
        asked: &Asked,
        one: &Branch,
        other: &Branch,
    ) -> Result<Told, AllocError>
        ensures { IfOk result (λ told. AreTold (table_of table.now) (core self.now) asked.now.held.items
            (rows_changed one.now.changes.items ++ rows_changed other.now.changes.items) told) }
    {
        let kept = self.give(alloc, table, &asked.held)?;
        let held = self.others(alloc, asked, &kept)?;
        let mut rows = Vec::new(alloc);
        self.arrive(table, &one.changes, &mut rows)?;
        self.arrive(table, &other.changes, &mut rows)?;
        Ok(Told { kept, held, rows })
    }

    // Whether what is held elsewhere is given, one after another: both lists are gone through together.
    fn give(&self, alloc: Global, table: &Rows, asked: &[Held]) -> Result<Vec<bool>, AllocError>
        ensures { IfOk result (λ kept. kept.items
            ≡ map (gives (table_of table.now) (viewed (core self.now))) (map said_held asked.now)) }
    {
        let mut kept = Vec::new(alloc);
        let mut place = 0;
        for one in asked {
            place = first_from(&self.held, one, place);
            kept.push(self.keeps(table, one, place))?;
        }
        Ok(kept)
    }

    // Whether something is given that may be held at a place: if it is, it is given where its variables are defined.
    fn keeps(&self, table: &Rows, one: &Held, place: usize) -> bool
        ensures { result ≡ gives (table_of table.now) (viewed (core self.now)) (said_held one.now) }
    {
        if place < self.held.len() && one.is_same(&self.held[place]) {
            return self.has_its_values(table, one);
        }
        self.gives(table, one)
    }

    // What is held here, without what stays elsewhere, where that stands in its order.
    fn others(&self, alloc: Global, asked: &Asked, kept: &[bool]) -> Result<Vec<Held>, AllocError>
        ensures { IfOk result (λ found. ToldLeaves (map said_held found.items) (map said_held self.now.held.items)
            (kept_by kept.now (map said_held asked.now.held.items))) }
    {
        let mut found = Vec::new(alloc);
        let mut place = 0;
        for one in &self.held {
            place = first_from(&asked.held, one, place);
            if asked.stays(kept, one, place) {
                continue;
            }
            found.push(*one)?;
        }
        Ok(found)
    }

    // Puts what is known of the rows that were changed behind other rows.
    fn arrive(
        &self,
        table: &Rows,
        changes: &[Change],
        rows: &mut Vec<Arrival>,
    ) -> Result<(), AllocError>
        ensures { IfOk result (λ _. rows.new.items ≡ rows.old.items
            ++ map (arrival_at (table_of table.now) (core self.now)) (rows_changed changes.now)) }
    {
        for change in changes {
            self.arrive_at(table, change, rows)?;
        }
        Ok(())
    }

    fn arrive_at(
        &self,
        table: &Rows,
        change: &Change,
        rows: &mut Vec<Arrival>,
    ) -> Result<(), AllocError>
        ensures { IfOk result (λ _. rows.new.items ≡ rows.old.items
            ++ map (arrival_at (table_of table.now) (core self.now)) (row_changed change.now)) }
    {
        if let Change::Row { row, .. } = change {
            rows.push(Arrival {
                row: *row,
                known: self.row(*row),
                is_whole: self.is_whole(table, *row),
            })?;
        }
        Ok(())
    }

    /// Those of what is held elsewhere that are given.
    pub fn given(
        &self,
        alloc: Global,
        table: &Rows,
        asked: &[Held],
    ) -> Result<Vec<Held>, AllocError>
        ensures { IfOk result (λ found. map said_held found.items
            ≡ filter (gives (table_of table.now) (viewed (core self.now))) (map said_held asked.now)) }
    {
        let mut found = Vec::new(alloc);
        for held in asked {
            if !self.gives(table, held) {
                continue;
            }
            found.push(*held)?;
        }
        Ok(found)
    }

    /// What is known of rows here and at the end of another way.
    pub fn joined(
        &self,
        alloc: Global,
        table: &Rows,
        rows: &[Arrival],
    ) -> Result<Vec<(usize, Row)>, AllocError>
        ensures { IfOk result (λ found. map said_at found.items
            ≡ map (joined_at (table_of table.now) (viewed (core self.now))) rows.now) }
    {
        let mut found = Vec::new(alloc);
        for other in rows {
            found.push((other.row, self.joined_row(table, other)))?;
        }
        Ok(found)
    }

    fn joined_row(&self, table: &Rows, other: &Arrival) -> Row
        ensures { said_row result
            ≡ (joined_at (table_of table.now) (viewed (core self.now)) other.now).1 }
    {
        let one = self.row(other.row);
        Row {
            range: one.range.join(&other.known.range),
            is_defined: one.is_defined && other.is_whole
                || other.known.is_defined && self.is_whole(table, other.row),
            growth: joined_growth(one.growth, other.known.growth),
        }
    }
}

// The first place from one on at which one stands that doesn't come before another, where they stand in their order.
fn first_from(held: &[Held], one: &Held, from: usize) -> usize
    ensures { result ≤ length held.now }
{
    for place in from..held.len() {
        match one.compare(&held[place]) {
            Ordering::Greater => {}
            _ => return place,
        }
    }
    held.len()
}
