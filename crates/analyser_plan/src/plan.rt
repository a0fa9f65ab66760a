use crate::calls::{Question, all_called, all_callers, all_recursive, spread};
use crate::frame::{alias_pairs, frame, loop_changes};
use crate::places::Grounds;
use crate::steps::add_steps;
use analyser_claims::{Program, number_of};
use analyser_tables::Ladders;
use certificate::{Certificate, Fact};
use checker_rows::Rows;
use std::alloc::{AllocError, Global};

/// What is proposed for a program.
#[derive(Drop)]
pub struct Plan {
    /// A section for each block, with claims for each loop, by their numbers: the pairs that may share a place, and
    /// what is changed. No facts.
    pub frame: Certificate,
    pub proposed: Proposed,
    pub course: Course,
}

/// Facts, beside the frame.
#[derive(Drop)]
pub struct Proposed {
    /// What may hold where each block begins, by its number; nothing for the program's.
    pub entries: Vec<Vec<Fact>>,
    /// What may hold where it ends, likewise.
    pub exits: Vec<Vec<Fact>>,
    /// What may hold whenever a turn of each loop begins, by its number.
    pub loops: Vec<Vec<Fact>>,
}

/// By what a walk over the program goes that doesn't move.
#[derive(Drop)]
pub struct Course {
    /// Where the ends of ranges stop that move.
    pub ladders: Ladders,
    /// The blocks that call each, ascending, by its number.
    pub callers: Vec<Vec<u32>>,
    /// Whether calls lead from each block back to it.
    pub is_recursive: Vec<bool>,
}

impl Plan {
    /// The plan for a program, of these rows.
    ///
    /// # Errors
    /// No memory.
    pub fn of(alloc: Global, rows: &Rows) -> Result<Plan, AllocError> {
        let program = Program::of(alloc, rows);
        let called = all_called(&program);
        let callers = all_callers(&program.memory, &called);
        let changes = spread(&program, &callers, Question::Changed);
        let mentions = spread(&program, &callers, Question::Mentioned);
        let turns = loop_changes(&program, &changes);
        let (pairs, listed) = alias_pairs(&program)?;
        let claims = program.all_claims(&mentions);
        let grounds = Grounds {
            program: &program,
            pairs: &pairs,
            claims: &claims,
            mentions: &mentions,
            changes: &changes,
            turns: &turns,
        };
        let memory = &program.memory;
        let (mut entries, mut exits) = (memory.rows(1), memory.rows(1));
        for block in 1..number_of(program.events.len()) {
            memory.push(&mut entries, grounds.entry(block));
            memory.push(&mut exits, grounds.exit(block));
        }
        let mut loops = memory.none();
        for number in 0..number_of(turns.len()) {
            memory.push(&mut loops, grounds.turn(number));
        }
        let mut ladders = Ladders::new(alloc, rows.count())?;
        add_steps(&program, &mut ladders);
        ladders.finish()?;
        let is_recursive = all_recursive(&program.memory, &called, &callers);
        let frame = frame(&program, listed, changes, turns);
        program.memory.finish()?;
        Ok(Plan {
            frame,
            proposed: Proposed {
                entries,
                exits,
                loops,
            },
            course: Course {
                ladders,
                callers,
                is_recursive,
            },
        })
    }
}
