use crate::spots::Spot;
use analyser_plan::Proposed;
use analyser_tables::Table;
use certificate::Fact;
use checker_loops::{BlockSection, Facts};
use checker_rows::Rows;
use std::alloc::{AllocError, Global};
use std::mem;

/// What is known so far where facts stand, beside the facts of blocks: those are kept in the sections of the walk.
#[derive(Drop)]
pub(crate) struct Places {
    pub(crate) entries: Vec<Table>,
    pub(crate) exits: Vec<Table>,
    pub(crate) loops: Vec<Table>,
    /// The facts at the heads of loops.
    pub(crate) heads: Vec<Vec<Fact>>,
}

impl Places {
    /// Facts stand from here on where blocks begin and end, and at the heads of loops.
    ///
    /// # Errors
    /// No memory.
    pub(crate) fn new(
        alloc: Global,
        rows: &Rows,
        facts: Proposed,
        sections: &mut [BlockSection],
    ) -> Result<Places, AllocError> {
        let places = Places {
            entries: tables(alloc, rows, &facts.entries)?,
            exits: tables(alloc, rows, &facts.exits)?,
            loops: tables(alloc, rows, &facts.loops)?,
            heads: facts.loops,
        };
        let of_blocks = facts.entries.into_iter().zip(facts.exits.into_iter());
        for (section, (start, end)) in sections.iter_mut().zip(of_blocks) {
            section.start = Facts::Kept(start);
            section.end = Facts::Kept(end);
        }
        Ok(places)
    }

    /// The table of a spot, and the facts there.
    pub(crate) fn at<'p>(
        &'p mut self,
        sections: &'p mut [BlockSection],
        spot: Spot,
    ) -> Option<(&'p mut Table, &'p mut Vec<Fact>)> {
        match spot {
            Spot::Entry(block) => {
                let table = self.entries.get_mut(block as usize)?;
                Some((table, kept(&mut sections.get_mut(block as usize)?.start)?))
            }
            Spot::Exit(block) => {
                let table = self.exits.get_mut(block as usize)?;
                Some((table, kept(&mut sections.get_mut(block as usize)?.end)?))
            }
            Spot::Loop(number) => {
                let table = self.loops.get_mut(number as usize)?;
                Some((table, self.heads.get_mut(number as usize)?))
            }
        }
    }
}

// Facts of a block that stand in no certificate yet.
fn kept<'p>(facts: &'p mut Facts) -> Option<&'p mut Vec<Fact>> {
    match facts {
        Facts::Kept(facts) => Some(facts),
        Facts::Listed(_) => None,
    }
}

/// Facts of a block, which stand there no longer.
pub(crate) fn taken(alloc: Global, facts: &mut Facts) -> Vec<Fact> {
    match kept(facts) {
        None => Vec::new(alloc),
        Some(facts) => mem::replace(facts, Vec::new(alloc)),
    }
}

// A table for each list of facts.
fn tables(alloc: Global, rows: &Rows, lists: &[Vec<Fact>]) -> Result<Vec<Table>, AllocError> {
    let mut tables = Vec::with_capacity(alloc, lists.len())?;
    for facts in lists {
        tables.push(Table::new(alloc, rows, facts)?)?;
    }
    Ok(tables)
}
