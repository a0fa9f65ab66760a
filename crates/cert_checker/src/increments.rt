//! Steps: assignments by which a variable gets its own value plus or minus that of an expression without calls.
ghost use Rattle.std.specs.Prelude.{◌≡◌};
ghost use Rattle.cert_checker.specs.Steps.{added, chain_step, difference_step, is_beside_quiet, link_step};
ghost use Rattle.cert_checker.specs.Steps.{operated_step, sum_step, taken_off, value_step};

use checker_expressions::noting::Noted;
use checker_rows::Rows;
use checker_state::{Known, entire};
use domain::Interval;
use typed_tree::{Dyadic, Expr, Link, holds_call};

/// What is known of a value.
#[derive(Drop)]
pub struct Valued {
    pub known: Known,
    /// What was noted of its operands, if anything was.
    pub notes: Vec<Noted>,
}

/// What the value of an expression adds to a variable, by its notes, if its assignment is a step.
pub(crate) fn value_step(rows: &Rows, root: u32, value: &Expr, notes: &[Noted]) -> Option<Interval>
    ensures { result ≡ value_step rows.now root value.now notes.now }
{
    match value {
        Expr::Chain { first, rest } => chain_step(rows, root, first, rest, notes),
        Expr::Constant { .. } => None,
        Expr::Variable { .. } => None,
        Expr::Monadic { .. } => None,
        Expr::Set { .. } => None,
        Expr::Compare { .. } => None,
        Expr::Call { .. } => None,
        Expr::Input { .. } => None,
    }
}

/// The same of operators behind a first operand: where there is one, it was noted once.
fn chain_step(
    rows: &Rows,
    root: u32,
    first: &Expr,
    rest: &[Link],
    notes: &[Noted],
) -> Option<Interval>
    ensures { result ≡ chain_step rows.now root first.now rest.now notes.now }
{
    match (rest, notes) {
        ([link], [noted]) => link_step(rows, root, first, link, noted),
        _ => None,
    }
}

/// The same of one operator behind a first operand.
fn link_step(rows: &Rows, root: u32, first: &Expr, link: &Link, noted: &Noted) -> Option<Interval>
    ensures { result ≡ link_step rows.now root first.now link.now noted.now }
{
    let at_left = is_beside_quiet(rows, root, first, &link.operand);
    let at_right = is_beside_quiet(rows, root, &link.operand, first);
    match link.operation {
        Dyadic::Plus { .. } => sum_step(at_left, at_right, noted),
        Dyadic::Minus { .. } => difference_step(at_left, noted),
        _ => None,
    }
}

/// Whether an operand is a variable, and the other one holds no call.
fn is_beside_quiet(rows: &Rows, root: u32, operand: &Expr, other: &Expr) -> bool
    ensures { result ≡ is_beside_quiet rows.now root operand.now other.now }
{
    match entire(rows, operand) {
        None => false,
        Some(variable) => root == variable && !holds_call(other),
    }
}

/// What a sum adds to a variable to its left, or else to one to its right.
fn sum_step(at_left: bool, at_right: bool, noted: &Noted) -> Option<Interval>
    ensures { result ≡ sum_step at_left at_right noted.now }
{
    if at_left {
        added(noted.right)
    } else if at_right {
        added(noted.left)
    } else {
        None
    }
}

/// What a difference adds to a variable to its left.
fn difference_step(at_left: bool, noted: &Noted) -> Option<Interval>
    ensures { result ≡ difference_step at_left noted.now }
{
    if at_left {
        taken_off(noted.right)
    } else {
        None
    }
}

/// What is added with an operand.
fn added(known: Known) -> Option<Interval>
    ensures { result ≡ added known }
{
    match known {
        Known::Ordinal(range) => Some(range),
        Known::Set(_) => None,
    }
}

/// What is added with its negative.
fn taken_off(known: Known) -> Option<Interval>
    ensures { result ≡ taken_off known }
{
    match known {
        Known::Ordinal(range) => Some(range.negate()),
        Known::Set(_) => None,
    }
}
