//! Which expressions hold a call of a function (ISO 7185:1990, 6.7.3), behind which variables may have changed.
ghost use Rattle.std.specs.Prelude.{◌≡◌, map};
ghost use Rattle.typed_tree.specs.Calls.{actuals_hold_call, any_holds, hold_call, holds_call, link_holds_call_of};
ghost use Rattle.typed_tree.specs.Calls.{passed_holds_call, whole_holds_call};

use crate::{Expr, Link, Passed, Whole};

/// Whether the expression holds a call of a function.
#[cycle(holds_call)]
pub fn holds_call(expression: &Expr) -> bool
    ensures { result ≡ holds_call expression.now }
{
    match expression {
        Expr::Constant { .. } | Expr::Input { .. } => false,
        Expr::Variable { indexes, .. } => hold_call(indexes.as_slice()),
        Expr::Set { members, .. } => hold_call(members.as_slice()),
        Expr::Monadic { operand, .. } => holds_call(operand),
        Expr::Chain { first, rest } => holds_call(first) || links_hold_call(rest),
        Expr::Compare {
            left,
            left_indexes,
            right,
            right_indexes,
            ..
        } => {
            whole_holds_call(left, left_indexes.as_slice())
                || whole_holds_call(right, right_indexes.as_slice())
        }
        Expr::Call { .. } => true,
    }
}

/// Whether one of the expressions does.
#[cycle(holds_call)]
pub fn hold_call(expressions: &[Expr]) -> bool
    ensures { result ≡ hold_call expressions.now }
{
    for expression in expressions {
        if holds_call(expression) {
            return true;
        }
    }
    false
}

/// Whether one of the right operands does.
#[cycle(holds_call)]
fn links_hold_call(links: &Vec<Link>) -> bool
    ensures { result ≡ any_holds (map link_holds_call_of links.now.items) }
{
    for link in links {
        if holds_call(&link.operand) {
            return true;
        }
    }
    false
}

/// Whether the whole value, with its index expressions, does.
#[cycle(holds_call)]
pub fn whole_holds_call(value: &Whole, indexes: &[Expr]) -> bool
    ensures { result ≡ whole_holds_call value.now indexes.now }
{
    match value {
        Whole::Text { .. } => false,
        Whole::Variable { .. } => hold_call(indexes),
    }
}

/// Whether the actual parameter does.
pub fn passed_holds_call(actual: &Passed) -> bool
    ensures { result ≡ passed_holds_call actual.now }
{
    match actual {
        Passed::Value { value, .. } => holds_call(value),
        Passed::Whole { value, indexes, .. } => whole_holds_call(value, indexes.as_slice()),
        Passed::Reference { indexes, .. } => hold_call(indexes.as_slice()),
    }
}

/// Whether one of the actual parameters of a call does.
pub fn actuals_hold_call(actuals: &[Passed]) -> bool
    ensures { result ≡ actuals_hold_call actuals.now }
{
    for actual in actuals {
        if passed_holds_call(actual) {
            return true;
        }
    }
    false
}
