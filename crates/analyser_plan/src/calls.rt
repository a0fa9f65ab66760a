//! What blocks do by their calls, and which blocks call each.

use analyser_claims::{Event, Memory, Program, number_of, row, settle};
use checker_calls::is_outward;
use std::mem;
use typed_tree::Passed;

/// What is asked of variables.
#[derive(Clone, Copy)]
pub(crate) enum Question {
    /// Whether they are accessed.
    Mentioned,
    /// Whether they get a value, other than of a control variable.
    Changed,
}

/// The blocks that each calls, ascending, by its number.
pub(crate) fn all_called(program: &Program) -> Vec<Vec<u32>> {
    let memory = &program.memory;
    let mut all = memory.none();
    for block in 0..program.events.len() {
        let calls = program.calls(number_of(block)).iter();
        let mut called = memory.list(calls.map(|(block, _)| *block).collect(memory.alloc));
        settle(&mut called);
        memory.push(&mut all, called);
    }
    all
}

/// The blocks that call each, likewise, by those that each calls.
pub(crate) fn all_callers(memory: &Memory, called: &[Vec<u32>]) -> Vec<Vec<u32>> {
    let mut all = memory.rows(called.len());
    for (caller, called) in called.iter().enumerate() {
        for block in called {
            if let Some(callers) = all.get_mut(*block as usize) {
                memory.push(callers, number_of(caller));
            }
        }
    }
    all
}

/// The outward variables of each block of which the answer is yes, there or in what it calls. They ascend.
pub(crate) fn spread(program: &Program, callers: &[Vec<u32>], question: Question) -> Vec<Vec<u32>> {
    let memory = &program.memory;
    let mut all = memory.rows(program.events.len());
    let mut due = memory.copy(&program.tree.bodies);
    due.reverse();
    let mut is_due = memory.filled(true, program.events.len());
    for _ in 0..u64::MAX {
        let Some(number) = due.pop() else {
            break;
        };
        if let Some(is_due) = is_due.get_mut(number as usize) {
            *is_due = false;
        }
        let mut roots = memory.none();
        for event in row(&program.events, number) {
            add_roots(program, &mut roots, &all, question, event);
        }
        roots.retain(|root| is_outward(program.tree, number, *root));
        settle(&mut roots);
        if let Some(known) = all.get_mut(number as usize)
            && known.len() < roots.len()
        {
            *known = roots;
            for caller in row(callers, number) {
                if let Some(is_due) = is_due.get_mut(*caller as usize)
                    && !mem::replace(is_due, true)
                {
                    memory.push(&mut due, *caller);
                }
            }
        }
    }
    all
}

/// Adds the variables of which the answer is yes by one event, and by what is known of each block.
pub(crate) fn add_roots(
    program: &Program,
    roots: &mut Vec<u32>,
    all: &[Vec<u32>],
    question: Question,
    event: &Event,
) {
    let memory = &program.memory;
    match event {
        Event::Access { access, .. } if matches!(question, Question::Mentioned) => {
            memory.push(roots, access.root);
        }
        Event::Assign(assignment) => memory.push(roots, assignment.target.root),
        Event::Copy(copying) => memory.push(roots, copying.target.root),
        Event::Read(read) => memory.push(roots, read.access.root),
        Event::Call { call, actuals } => {
            let formals = program.parameters(call.block);
            let known = row(all, call.block).iter();
            let passed = known.filter_map(|root| root_passed(formals, actuals, *root));
            memory.put(roots.extend(passed));
        }
        _ => {}
    }
}

/// Whether calls lead from each block back to it: whether it is called by itself, or by one of those that lie on cycles
/// with it. These are found by one search against the calls and another along them.
pub(crate) fn all_recursive(
    memory: &Memory,
    called: &[Vec<u32>],
    callers: &[Vec<u32>],
) -> Vec<bool> {
    let all = memory.list((0..number_of(called.len())).collect(memory.alloc));
    let (mut done, _) = search(memory, callers, &all);
    done.reverse();
    let (_, starts) = search(memory, called, &done);
    let answers = all.iter().map(|block| {
        let start = starts.get(*block as usize);
        row(callers, *block)
            .iter()
            .any(|caller| starts.get(*caller as usize) == start)
    });
    memory.list(answers.collect(memory.alloc))
}

// A search along rows from some blocks, one after the other, each as far as blocks are new: the blocks, each behind
// those that are found from it, and for each block, by its number, from which of the given ones it is found.
fn search(memory: &Memory, rows: &[Vec<u32>], given: &[u32]) -> (Vec<u32>, Vec<u32>) {
    let (mut due, mut done) = (memory.none(), memory.none());
    let mut starts = memory.filled(u32::MAX, rows.len());
    for start in given {
        memory.push(&mut due, (*start, false));
        for _ in 0..u64::MAX {
            let Some((block, is_done)) = due.pop() else {
                break;
            };
            if is_done {
                memory.push(&mut done, block);
            } else if let Some(known) = starts.get_mut(block as usize)
                && *known == u32::MAX
            {
                *known = *start;
                memory.push(&mut due, (block, true));
                for next in row(rows, block) {
                    memory.push(&mut due, (*next, false));
                }
            }
        }
    }
    (done, starts)
}

// The variable that a caller knows by a root of the block that it calls; what is passed as a value is none of its own.
fn root_passed(formals: &[u32], actuals: &[Passed], root: u32) -> Option<u32> {
    let mut passed = formals.iter().zip(actuals.iter());
    match passed.find(|(formal, _)| **formal == root) {
        None => Some(root),
        Some((_, Passed::Reference { access, .. })) => Some(access.root),
        Some(_) => None,
    }
}
