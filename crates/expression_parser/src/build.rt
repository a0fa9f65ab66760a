ghost use Rattle.reading.specs.Outline as form;
ghost use Rattle.reading.specs.Trees.{expr_outline};
ghost use Rattle.expression_parser.specs.Built.{Builds, IsBuilt, links_outlines};

use place::Place;
use std::alloc::Global;
use syntax_tree::{Expr, Link, RelationalOperator, Sign};
use token_cursor::{Read, boxed};

/// A relation, by its left operand and what was read behind its operator.
pub(crate) fn relation<'a>(
    alloc: Global,
    left: Expr<'a>,
    operator: RelationalOperator,
    place: Place,
    right: Read<Expr<'a>>,
) -> Read<Expr<'a>>
    ensures { Builds (form.relation (expr_outline left.entry) operator place) right.entry result }
{
    let right = boxed(alloc, right)?;
    let left = Box::new(alloc, left)?;
    Ok(Expr::Relation {
        left,
        operator,
        place,
        right,
    })
}

/// A first operand, alone or with the operators behind it.
#[tactic(auto, using(crate::proofs::Built::built_expressions))]
pub(crate) fn chain<'a>(alloc: Global, first: Expr<'a>, rest: Vec<Link<'a>>) -> Read<Expr<'a>>
    ensures { IsBuilt (form.chain (expr_outline first.entry) (links_outlines rest.entry)) result }
{
    if rest.is_empty() {
        return Ok(first);
    }
    let first = Box::new(alloc, first)?;
    Ok(Expr::Chain { first, rest })
}

/// A sign, and the term that was read behind it.
pub(crate) fn signed<'a>(
    alloc: Global,
    sign: Sign,
    place: Place,
    term: Read<Expr<'a>>,
) -> Read<Expr<'a>>
    ensures { Builds (form.signed sign place) term.entry result }
{
    let term = boxed(alloc, term)?;
    Ok(Expr::Signed { sign, place, term })
}

/// `not`, and the operand that was read behind it.
pub(crate) fn negated<'a>(alloc: Global, place: Place, operand: Read<Expr<'a>>) -> Read<Expr<'a>>
    ensures { Builds (form.negated place) operand.entry result }
{
    let operand = boxed(alloc, operand)?;
    Ok(Expr::Not { place, operand })
}

/// Parentheses, and the expression that was read between them.
pub(crate) fn parenthesized<'a>(alloc: Global, open: Place, inner: Read<Expr<'a>>) -> Read<Expr<'a>>
    ensures { Builds (form.parenthesized «open») inner.entry result }
{
    let inner = boxed(alloc, inner)?;
    Ok(Expr::Parenthesized { open, inner })
}
