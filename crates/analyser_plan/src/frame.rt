//! What loops change, which variables may share a place (ISO 7185:1990, 6.6.3.3), and the certificate that lists it.

use crate::calls::{Question, add_roots};
use analyser_claims::{Event, Memory, Program, number_of, settle};
use certificate::{AliasPair, Certificate, LoopClaims, Section};
use checker_calls::overlaps::{is_declared_in, may_overlap};
use checker_loops::Pairs;
use domain::Version;
use std::alloc::AllocError;
use typed_tree::Passed;

/// What each loop changes, by what each block does. The root numbers ascend.
pub(crate) fn loop_changes(program: &Program, changes: &[Vec<u32>]) -> Vec<Vec<u32>> {
    let memory = &program.memory;
    let mut found = memory.rows(program.tree.loops.len());
    for events in &program.events {
        let mut open: Vec<(u32, Vec<u32>)> = memory.none();
        for event in events {
            if let Event::Enter { number, .. } = event {
                memory.push(&mut open, (*number, memory.none()));
            } else if let Event::Leave = event {
                close(memory, &mut open, &mut found);
            } else if let Some((_, roots)) = open.last_mut() {
                add_roots(program, roots, changes, Question::Changed, event);
            }
        }
    }
    found
}

// A loop ends: the one round it changes the same.
fn close(memory: &Memory, open: &mut Vec<(u32, Vec<u32>)>, found: &mut [Vec<u32>]) {
    let Some((number, mut roots)) = open.pop() else {
        return;
    };
    settle(&mut roots);
    if let Some((_, outer)) = open.last_mut() {
        memory.put(outer.extend_from_slice(&roots));
    }
    if let Some(place) = found.get_mut(number as usize) {
        *place = roots;
    }
}

/// The variables that may share a place, and the same in ascending order. The second is a parameter of the block on
/// which they are listed, and the first another, or a variable of a block round it.
pub(crate) fn alias_pairs<'t>(
    program: &Program<'_, 't>,
) -> Result<(Pairs<'t>, Vec<(u32, u32)>), AllocError> {
    let memory = &program.memory;
    let mut all = memory.none();
    let mut listed = Pairs::of(memory.alloc, program.tree, memory.none())?;
    for _ in 0..u64::MAX {
        let mut has_grown = false;
        // Callers mostly stand behind what they call, so pairs come all the way down in one round.
        for caller in program.tree.bodies.iter().rev() {
            let mut found = memory.none();
            for (called, actuals) in program.calls(*caller) {
                add_pairs(program, &mut found, &listed, *caller, *called, actuals);
            }
            for (first, second) in found {
                if !listed.has(first, second) {
                    listed = listed.with(memory.alloc, AliasPair { first, second })?;
                    memory.push(&mut all, (first, second));
                    has_grown = true;
                }
            }
        }
        if !has_grown {
            break;
        }
    }
    all.sort_unstable();
    Ok((listed, all))
}

// Those that a call in one block of another makes.
fn add_pairs(
    program: &Program,
    found: &mut Vec<(u32, u32)>,
    listed: &Pairs,
    caller: u32,
    block: u32,
    actuals: &[Passed],
) {
    let memory = &program.memory;
    let Some(called) = program.tree.blocks.get(block as usize) else {
        return;
    };
    let formals = &called.heading.parameters;
    let around = &called.heading.around;
    for (place, (formal, actual)) in formals.iter().zip(actuals.iter()).enumerate() {
        let Passed::Reference { access, .. } = actual else {
            continue;
        };
        let aliases = listed.aliases_in(memory.alloc, caller, access.root);
        for root in memory.list(aliases).iter().chain(&[access.root]) {
            if is_declared_in(program.tree, around, *root) {
                memory.push(found, (*root, *formal));
            }
        }
        for (other, passed) in formals.iter().zip(actuals.iter()).take(place) {
            if let Passed::Reference { access: before, .. } = passed
                && may_overlap(listed, before, access)
            {
                memory.push(found, (*other, *formal));
            }
        }
    }
}

/// A certificate without facts, with a section for each block and claims for each loop: what they change, and the
/// pairs.
pub(crate) fn frame(
    program: &Program,
    pairs: Vec<(u32, u32)>,
    changes: Vec<Vec<u32>>,
    turns: Vec<Vec<u32>>,
) -> Certificate {
    let memory = &program.memory;
    let mut sections = memory.none();
    for (number, changes) in changes.into_iter().enumerate() {
        memory.push(&mut sections, section(memory, number_of(number), changes));
    }
    for (first, second) in pairs {
        if let Some(variable) = program.tree.variables.get(second as usize)
            && let Some(section) = sections.get_mut(variable.block as usize)
        {
            memory.push(&mut section.aliases, AliasPair { first, second });
        }
    }
    for (number, changes) in turns.into_iter().enumerate() {
        let claims = LoopClaims {
            number: number_of(number),
            changes,
            facts: memory.none(),
        };
        if let Some(one) = program.tree.loops.get(number)
            && let Some(section) = sections.get_mut(one.block as usize)
        {
            memory.push(&mut section.loops, claims);
        }
    }
    Certificate {
        version: Version::Three,
        sections,
    }
}

// What is listed of a block; the program's lists nothing itself.
fn section(memory: &Memory, block: u32, changes: Vec<u32>) -> Section {
    Section {
        block,
        aliases: memory.none(),
        changes: if block == 0 { memory.none() } else { changes },
        entry: memory.none(),
        exit: memory.none(),
        loops: memory.none(),
    }
}
