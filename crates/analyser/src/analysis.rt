use crate::places::{Places, taken};
use crate::spots::Spot;
use analyser_claims::row;
use analyser_plan::{Course, Proposed};
use analyser_tables::{Coming, Pace, Table};
use cert_checker::walk::Walk;
use certificate::Fact;
use checker_calls::Bindings;
use checker_trail::{Mark, State};
use std::alloc::{AllocError, Global};
use std::mem;
use typed_tree::Block;

/// A walk over a program by what is known so far where facts stand, which moves with what comes there.
#[derive(Drop)]
pub(crate) struct Analysis<'a> {
    /// The checker's walk by a certificate without facts. Those of blocks are kept in its sections.
    pub(crate) walk: Walk<'a>,
    pub(crate) course: &'a Course,
    /// The variables that each block declares, by its number.
    pub(crate) declared: &'a [Vec<u32>],
    pub(crate) places: Places,
    /// Whether a block has to be walked, since something by which it goes moved.
    pub(crate) due: Vec<bool>,
    /// Whether it is being walked.
    pub(crate) walked: Vec<bool>,
    /// No block of a lower number is due.
    pub(crate) next: usize,
    /// Whether what comes is only collected, and nothing moves.
    pub(crate) narrows: bool,
    /// How many for statements it is in.
    pub(crate) depth: usize,
    /// How many loops were begun so far.
    pub(crate) begun: usize,
    /// States in which nothing is known but by types, for blocks that are walked from calls.
    pub(crate) spare: Vec<State<'a>>,
}

impl<'a> Analysis<'a> {
    /// Before the first round, where nothing came yet to the facts that are proposed.
    ///
    /// # Errors
    /// No memory.
    pub(crate) fn new(
        alloc: Global,
        mut walk: Walk<'a>,
        course: &'a Course,
        declared: &'a [Vec<u32>],
        facts: Proposed,
    ) -> Result<Analysis<'a>, AllocError> {
        let rows = walk.flow.state.table();
        let sections = &mut walk.flow.grounds.sections;
        let blocks = sections.len();
        let places = Places::new(alloc, rows, facts, sections)?;
        Ok(Analysis {
            walk,
            course,
            declared,
            places,
            due: vec![in alloc; false; blocks]?,
            walked: vec![in alloc; false; blocks]?,
            next: 0,
            narrows: false,
            depth: 0,
            begun: 0,
            spare: Vec::new(alloc),
        })
    }

    /// The facts that stand, where nothing moves any longer.
    ///
    /// # Errors
    /// No memory, perhaps before.
    pub(crate) fn take(&mut self, alloc: Global) -> Result<Proposed, AllocError> {
        if let Some(refused) = self.state().refusal() {
            return Err(refused.into());
        }
        let rows = self.walk.flow.state.table();
        for (table, facts) in self.places.loops.iter().zip(self.places.heads.iter_mut()) {
            table.settle(facts, rows);
        }
        let mut facts = Proposed {
            entries: Vec::new(alloc),
            exits: Vec::new(alloc),
            loops: mem::replace(&mut self.places.heads, Vec::new(alloc)),
        };
        for section in self.walk.flow.grounds.sections.iter_mut() {
            facts.entries.push(taken(alloc, &mut section.start))?;
            facts.exits.push(taken(alloc, &mut section.end))?;
        }
        Ok(facts)
    }

    /// What is known where the walk is comes to a spot, from a call with its bindings if that is where a routine
    /// begins. Whether that moved what is known there.
    pub(crate) fn arrive(&mut self, spot: Spot, bindings: Option<Bindings>, counts: bool) -> bool {
        let flow = &mut self.walk.flow;
        let state = &flow.state;
        let pace = Pace {
            rows: state.table(),
            ladders: &self.course.ladders,
            narrows: self.narrows,
            counts,
        };
        match self.places.at(&mut flow.grounds.sections, spot) {
            None => false,
            Some((table, facts)) => arrived(table, facts, state, bindings, pace),
        }
    }

    /// Where what is known at a spot moved, the blocks that go by it have to be walked.
    pub(crate) fn follow(&mut self, spot: Spot, has_moved: bool) {
        if !has_moved {
            return;
        }
        let course = self.course;
        match spot {
            Spot::Entry(block) => self.make_due(block),
            Spot::Exit(block) => {
                for caller in row(&course.callers, block) {
                    self.make_due(*caller);
                }
            }
            Spot::Loop(number) => {
                if let Some(one) = self.state().table().tree().loops.get(number as usize) {
                    self.make_due(one.block);
                }
            }
        }
    }

    // A block has to be walked.
    fn make_due(&mut self, block: u32) {
        if let Some(due) = self.due.get_mut(block as usize) {
            *due = true;
            self.next = self.next.min(block as usize);
        }
    }
}

// What is known where the walk is.
impl<'a> Analysis<'a> {
    /// Its state.
    pub(crate) fn state(&self) -> &State<'a> {
        &self.walk.flow.state
    }

    /// The block of a number.
    pub(crate) fn block(&self, number: u32) -> Option<&'a Block> {
        self.state().table().tree().blocks.get(number as usize)
    }

    /// Goes back to a mark.
    pub(crate) fn go_back(&mut self, mark: Mark) {
        let _way = self.walk.flow.state.leave(mark);
    }

    /// Goes on where no run comes, unless runs come.
    pub(crate) fn die_unless(&mut self, runs_come: bool) {
        if !runs_come {
            self.walk.flow.state.die();
        }
    }
}

// A state comes to facts, perhaps from a call. Whether it moved any.
fn arrived(
    table: &mut Table,
    facts: &mut Vec<Fact>,
    state: &State,
    bindings: Option<Bindings>,
    pace: Pace,
) -> bool {
    match bindings {
        None => table.arrive(facts, &Coming::here(state), pace),
        Some(bindings) => table.arrive(facts, &Coming::called(state, bindings), pace),
    }
}
