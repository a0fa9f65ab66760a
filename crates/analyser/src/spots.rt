//! The spots of a program where facts stand, and what becomes of those that a certificate has there.

use crate::accepting::drop_weakest;
use crate::outcome::put;
use analyser_plan::Proposed;
use certificate::{Certificate, Fact};
use checker_rows::Rows;
use std::slice::Iter;

/// Where facts stand: where a block begins or ends, or at the head of a loop, by their numbers.
#[derive(Clone, Copy, PartialEq, Eq)]
pub(crate) enum Spot {
    Entry(u32),
    Exit(u32),
    Loop(u32),
}

/// What becomes of the facts of a certificate.
#[derive(Drop)]
pub(crate) enum Revision<'a> {
    /// There are none yet: those come that stand at the end, without those that others say as well.
    Fill(&'a Rows<'a>, Proposed),
    /// Those of the weakest kind go that stand at a spot; of each spot, where none is told.
    Weaken(Option<Spot>),
    /// Those stay of which it is told, in the order of the text.
    Sift(Iter<'a, bool>),
}

impl<'a> Revision<'a> {
    /// Changes a certificate, whose lists of facts are gone over in the order of the text.
    pub(crate) fn make(mut self, certificate: &mut Certificate) {
        for section in certificate.sections.iter_mut() {
            self.revise(Spot::Entry(section.block), &mut section.entry);
            self.revise(Spot::Exit(section.block), &mut section.exit);
            for claims in section.loops.iter_mut() {
                self.revise(Spot::Loop(claims.number), &mut claims.facts);
            }
        }
    }

    // Changes the facts of a spot.
    fn revise(&mut self, spot: Spot, facts: &mut Vec<Fact>) {
        match self {
            Revision::Fill(rows, found) => fill(rows, found, spot, facts),
            Revision::Weaken(told) if told.is_some_and(|told| told != spot) => {}
            Revision::Weaken(_) => drop_weakest(facts),
            Revision::Sift(stays) => facts.retain(|_| matches!(stays.next(), Some(true))),
        }
    }
}

// Puts those facts into a list that were found for its spot.
fn fill(rows: &Rows, found: &mut Proposed, spot: Spot, facts: &mut Vec<Fact>) {
    match spot {
        Spot::Entry(block) => put(rows, facts, found.entries.get_mut(block as usize)),
        Spot::Exit(block) => put(rows, facts, found.exits.get_mut(block as usize)),
        Spot::Loop(number) => put(rows, facts, found.loops.get_mut(number as usize)),
    }
}
