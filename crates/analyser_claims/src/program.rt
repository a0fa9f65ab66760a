use crate::{Event, Memory, Part, all_parts, events_of, row};
use checker_rows::Rows;
use std::alloc::Global;
use typed_tree::{Passed, Tree};

/// A program, block by block.
#[derive(Drop)]
pub struct Program<'p, 't> {
    /// Where its lists take their memory, and those that are made of it.
    pub memory: Memory,
    pub rows: &'p Rows<'t>,
    pub tree: &'t Tree,
    /// What happens in each block, by its number.
    pub events: Vec<Vec<Event<'t>>>,
    // By its number too, which blocks it calls, in the order of its events, and what is passed.
    calls: Vec<Vec<(u32, &'t [Passed])>>,
    // Of each variable, by its root number.
    parts: Vec<Vec<Part>>,
}

impl<'p, 't> Program<'p, 't> {
    /// The program of some rows, as far as `memory` suffices.
    pub fn of(alloc: Global, rows: &'p Rows<'t>) -> Program<'p, 't> {
        let memory = Memory::of(alloc);
        let tree = rows.tree();
        let (mut events, mut calls) = (memory.none(), memory.none());
        for block in &tree.blocks {
            let found = memory.list(events_of(alloc, &block.body));
            memory.push(&mut calls, calls_among(&memory, &found));
            memory.push(&mut events, found);
        }
        let parts = all_parts(&memory, rows);
        Program {
            memory,
            rows,
            tree,
            events,
            calls,
            parts,
        }
    }

    /// Which blocks a block calls, one for each call, and what is passed.
    pub fn calls(&self, block: u32) -> &[(u32, &'t [Passed])] {
        row(&self.calls, block)
    }

    /// The formal parameters of a block.
    pub fn parameters(&self, block: u32) -> &'t [u32] {
        match self.tree.blocks.get(block as usize) {
            None => &[],
            Some(block) => &block.heading.parameters,
        }
    }

    /// The root number of the result of a block, if it has one.
    pub fn result(&self, block: u32) -> Option<u32> {
        let result = self.tree.blocks.get(block as usize)?.heading.result?;
        Some(result.root)
    }

    /// The parts of a variable, itself first.
    pub fn parts(&self, root: u32) -> &[Part] {
        row(&self.parts, root)
    }
}

fn calls_among<'t>(memory: &Memory, events: &[Event<'t>]) -> Vec<(u32, &'t [Passed])> {
    let calls = events.iter().filter_map(|event| match event {
        Event::Call { call, actuals } => Some((call.block, *actuals)),
        _ => None,
    });
    memory.list(calls.collect(memory.alloc))
}
