//! The steps at which ranges stop: the constants that variables meet.

use analyser_claims::{Event, Program};
use analyser_tables::Ladders;
use checker_rows::{Rows, Span};
use checker_state::bound_form;
use domain::Version;
use typed_tree::{Dyadic, Expr, Link, Passed, RangeTest, Selector, Whole};
use types::OrdinalRange;

/// What is known of a value by its spelling: a constant, or what a row holds plus a number.
#[derive(Clone, Copy)]
enum Spelling {
    Constant(i64),
    Moved(usize, i64),
}

/// Adds the steps of all rows, and joins the rows whose values meet.
pub(crate) fn add_steps(program: &Program, ladders: &mut Ladders) {
    for event in program.events.iter().flatten() {
        add_step(program, event, ladders);
    }
}

fn add_step(program: &Program, event: &Event, ladders: &mut Ladders) {
    let rows = program.rows;
    match event {
        Event::Access { access, indexes } => {
            let mut left = indexes.iter();
            for selector in &access.selectors {
                if let Selector::Element { fits, .. } = selector
                    && let Some(index) = left.next()
                {
                    test(rows, index, fits.range, ladders);
                }
            }
        }
        Event::Evaluate(Expr::Chain { first, rest }) => {
            if let [link] = rest.as_slice()
                && let Dyadic::Relation(_) = link.operation
            {
                meet(rows, first, &link.operand, ladders);
                meet(rows, &link.operand, first, ladders);
            }
        }
        Event::Assign(assignment) => {
            let target = rows.accessed(&assignment.target);
            pass(program, target, &assignment.value, assignment.fits, ladders);
        }
        Event::Copy(copying) => {
            let target = rows.accessed(&copying.target);
            join_whole(rows, target, &copying.value, ladders);
        }
        Event::Call { call, actuals } => {
            for (formal, actual) in program.parameters(call.block).iter().zip(actuals.iter()) {
                pass_actual(program, rows.of_variable(*formal), actual, ladders);
            }
        }
        Event::Case(head) => {
            for constant in head.constants.iter().flatten() {
                step(rows, &head.index, i64::from(*constant), ladders);
            }
        }
        Event::Enter {
            head: Some(head),
            ..
        } => {
            let control = rows.of_variable(head.control);
            for bound in [&head.first, &head.last] {
                pass(program, control, &bound.value, bound.fits, ladders);
            }
        }
        _ => {}
    }
}

// What is known of a value by its spelling.
fn spelled(rows: &Rows, value: &Expr) -> Option<Spelling> {
    if let Expr::Variable { access, .. } = value {
        return Some(Spelling::Moved(rows.accessed(access).first, 0));
    }
    let bound = bound_form(Version::Three, rows, value)?;
    let number = i64::from(bound.number);
    Some(match bound.root {
        None => Spelling::Constant(number),
        Some(root) => Spelling::Moved(root as usize, number),
    })
}

// A value meets a constant.
fn step(rows: &Rows, value: &Expr, constant: i64, ladders: &mut Ladders) {
    if let Some(Spelling::Moved(row, by)) = spelled(rows, value) {
        ladders.add(row, constant.saturating_sub(by));
    }
}

// It is tested to lie in a range.
fn test(rows: &Rows, value: &Expr, range: OrdinalRange, ladders: &mut Ladders) {
    step(rows, value, i64::from(range.first), ladders);
    step(rows, value, i64::from(range.last), ladders);
}

// It is compared with another.
fn meet(rows: &Rows, value: &Expr, other: &Expr, ladders: &mut Ladders) {
    match spelled(rows, other) {
        Some(Spelling::Constant(constant)) => {
            for by in [-1, 0, 1] {
                step(rows, value, constant.saturating_add(by), ladders);
            }
        }
        Some(Spelling::Moved(row, _)) => join(rows, row, value, ladders),
        None => {}
    }
}

// It comes to a row, or is compared with what that holds.
fn join(rows: &Rows, row: usize, value: &Expr, ladders: &mut Ladders) {
    if let Some(Spelling::Moved(other, _)) = spelled(rows, value) {
        ladders.join(row, other);
    }
}

// It is stored to the first of some rows, behind a test.
fn pass(program: &Program, target: Span, value: &Expr, fits: RangeTest, ladders: &mut Ladders) {
    let rows = program.rows;
    test(rows, value, fits.range, ladders);
    join(rows, target.first, value, ladders);
    if let Some(Spelling::Constant(constant)) = spelled(rows, value) {
        ladders.add(target.first, constant);
    }
    match value {
        Expr::Call { call, .. } => {
            if let Some(result) = program.result(call.block) {
                ladders.join(target.first, result as usize);
            }
        }
        Expr::Chain { first, rest } => pass_remainder(rows, target, first, rest, ladders),
        _ => {}
    }
}

// A remainder by a constant has narrow ends, also behind a constant that is added.
fn pass_remainder(rows: &Rows, target: Span, first: &Expr, rest: &[Link], ladders: &mut Ladders) {
    add_remainder(rows, target, rest, 0, ladders);
    if let (Some(link), Expr::Chain { rest, .. }) = (rest.last(), first)
        && let Dyadic::Plus { .. } = link.operation
        && let Some(Spelling::Constant(number)) = spelled(rows, &link.operand)
    {
        add_remainder(rows, target, rest, number, ladders);
    }
}

// The ends of a remainder plus a number, if operators end with it.
fn add_remainder(rows: &Rows, target: Span, links: &[Link], number: i64, ladders: &mut Ladders) {
    if let Some(link) = links.last()
        && let Dyadic::Mod { .. } = link.operation
        && let Some(Spelling::Constant(divisor)) = spelled(rows, &link.operand)
    {
        ladders.add(target.first, number);
        let last = number.saturating_add(divisor).saturating_sub(1);
        ladders.add(target.first, last);
    }
}

// What is passed comes to the rows of a formal parameter.
fn pass_actual(program: &Program, formal: Span, actual: &Passed, ladders: &mut Ladders) {
    let rows = program.rows;
    match actual {
        Passed::Value { value, fits } => pass(program, formal, value, *fits, ladders),
        Passed::Whole { value, .. } => join_whole(rows, formal, value, ladders),
        Passed::Reference { access, .. } => join_all(formal, rows.accessed(access), ladders),
    }
}

fn join_whole(rows: &Rows, target: Span, value: &Whole, ladders: &mut Ladders) {
    if let Whole::Variable { access, .. } = value {
        join_all(target, rows.accessed(access), ladders);
    }
}

// The rows of one part and of another of its type share their steps.
fn join_all(span: Span, other: Span, ladders: &mut Ladders) {
    for (row, another) in (span.first..span.end()).zip(other.first..other.end()) {
        ladders.join(row, another);
    }
}
