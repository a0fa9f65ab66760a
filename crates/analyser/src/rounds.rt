//! Rounds over the blocks of a program, until nothing moves any longer.

use crate::calls::WALK;
use crate::spots::Spot;
use crate::{Analysis, Tally};
use analyser_claims::number_of;
use std::mem;

// How many walks may stand in one another.
const DEEP: u32 = 32;
// How often ranges are narrowed.
const NARROWINGS: u32 = 2;
// How often a block may be walked on average before all stops.
const MOST: usize = 200;

impl<'a> Analysis<'a> {
    /// Goes over the program until what is known where facts stand is given wherever it has to be.
    pub(crate) fn run(&mut self, visits: &mut Tally) {
        self.follow(Spot::Entry(0), true);
        self.ascend(visits);
        self.reach_all();
        self.ascend(visits);
        for _ in 0..NARROWINGS {
            if !self.narrow(visits) {
                return;
            }
            self.ascend(visits);
        }
    }

    // Walks over blocks that are due, the lowest first, until none is.
    fn ascend(&mut self, visits: &mut Tally) {
        for _ in 0..self.due.len().saturating_mul(MOST) {
            let Some(number) = self.next_due() else {
                return;
            };
            self.next = number;
            self.visit(number_of(number), DEEP * WALK, visits);
        }
    }

    // The lowest block that is due.
    fn next_due(&self) -> Option<usize> {
        let from = self.next.min(self.due.len());
        let place = self.due[from..].iter().position(|is_due| *is_due)?;
        Some(from + place)
    }

    // What no state came to counts as reached from here on, with the empty ranges that stand there.
    fn reach_all(&mut self) {
        for block in 0..number_of(self.due.len()) {
            self.reach(Spot::Entry(block));
            self.reach(Spot::Exit(block));
        }
    }

    // The same of a spot.
    fn reach(&mut self, spot: Spot) {
        let place = self.places.at(&mut self.walk.flow.grounds.sections, spot);
        let is_new = place.is_some_and(|(table, _)| !mem::replace(&mut table.is_reached, true));
        self.follow(spot, is_new);
    }

    // Walks over each block once, and meets the ranges at each spot with what comes there. Whether any moved.
    fn narrow(&mut self, visits: &mut Tally) -> bool {
        let blocks = number_of(self.due.len());
        self.narrows = true;
        for block in 0..blocks {
            self.visit(block, DEEP * WALK, visits);
        }
        self.narrows = false;
        let mut has_moved = false;
        for block in 0..blocks {
            has_moved |= self.meet(Spot::Entry(block));
            has_moved |= self.meet(Spot::Exit(block));
        }
        for number in 0..number_of(self.places.loops.len()) {
            has_moved |= self.meet(Spot::Loop(number));
        }
        has_moved
    }

    // Meets the ranges at a spot with what came there. Whether any moved.
    fn meet(&mut self, spot: Spot) -> bool {
        let place = self.places.at(&mut self.walk.flow.grounds.sections, spot);
        let has_moved = place.is_some_and(|(table, facts)| table.narrow(facts));
        self.follow(spot, has_moved);
        has_moved
    }
}
