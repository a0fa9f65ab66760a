ghost use Rattle.std.specs.Prelude.{◌≡◌, MatchResult, map, false, true};
ghost use Rattle.memory.specs.Refused.{the_refusal};
ghost use Rattle.typed_tree.specs.declared.fault.TypeFault.TheVariants.{Memory};
ghost use Rattle.typed_tree.specs.Kinds.{held_by, is_held, is_ordinal_expr, links_held};
ghost use Rattle.typed_tree.specs.Look.{look_expr};
ghost use Rattle.types.specs.Types.{boolean};
ghost use Rattle.typing_rules.specs.Typed.{is_scalar_value, typed};
ghost use Rattle.expression_resolver.specs.Made.{AreLinksOf, IsMonadicOf, IsChainOf, IsRelationOf, IsRightOf};
ghost use Rattle.expression_resolver.specs.Made.{MakesChain, MakesRelation, held_behind, relates};
ghost use Rattle.expression_resolver.specs.Made.{typed_of};
ghost use Rattle.expression_resolver.specs.Values.{is_held_as_told, look_value, scalar_of, value_of};

use crate::owned::made_beside;
use crate::typed::{Begun, RightOperand, TypedLinks};
use crate::{TypedExpr, Value};
use place::Place;
use std::alloc::Global;
use typed_tree::{Dyadic, Expr, Link, Monadic, TypeFault};
use types::{TypeId, TypeTable};
use typing::Made;
use typing_rules::TypedValue;

/// An operation on an operand, an ordinal, with a result of a type.
#[tactic(auto, using(typed_tree::proofs::Looks::look_monadic, crate::proofs::HeldForms::held_monadic))]
pub(crate) fn monadic(
    alloc: Global,
    begun: Begun,
    operation: Monadic,
    operand: Expr,
    type_id: TypeId,
) -> Made<TypedExpr>
    requires held { is_ordinal_expr operand ≡ true }
    ensures { MatchResult result (IsMonadicOf begun operation operand type_id) (λ why. why ≡ Memory the_refusal) }
{
    let value = Expr::Monadic {
        number: begun.number,
        operation,
        operand: Box::new(alloc, operand)?,
    };
    Ok(TypedExpr {
        value: Value::Ordinal { type_id, value },
        site: begun.site,
    })
}

// What stands for an ordinal or a set.
fn scalar(told: TypedValue, value: Expr) -> Value
    requires scalar { is_scalar_value told ≡ true }
    requires held { is_held (scalar_of told) (held_by value) ≡ true }
    ensures is { value_of result ≡ told }
    ensures looks { look_value result ≡ look_expr value }
    ensures held { is_held_as_told result ≡ true }
{
    match told {
        TypedValue::Ordinal(type_id) => Value::Ordinal { type_id, value },
        TypedValue::Set(base) => Value::Set { base, value },
        TypedValue::Text { .. } | TypedValue::Whole { .. } => unreachable!(),
    }
}

/// A first operand and the operators behind it, unless these are refused: K1 at the place where it is no ordinal and no
/// set.
pub(crate) fn chain(
    alloc: Global,
    place: Place,
    left: TypedExpr,
    rest: Made<TypedLinks>,
) -> Made<TypedExpr>
    requires held { AreLinksOf (value_of left.value) rest }
    ensures { MakesChain place left rest result }
{
    let rest = made_beside!(rest, left);
    if !rest.typed.value.is_scalar() {
        drop(left);
        drop(rest);
        return Err(TypeFault::Mismatch(place));
    }
    let site = left.site;
    chained(alloc, left.into_scalar(), site, rest)
}

// Operators of one precedence behind a first operand.
#[tactic(auto, using(typed_tree::proofs::Looks::look_chain, crate::proofs::HeldForms::held_chain))]
fn chained(alloc: Global, first: Expr, site: Option<u32>, rest: TypedLinks) -> Made<TypedExpr>
    requires scalar { is_scalar_value rest.typed.value ≡ true }
    requires held { is_held (scalar_of rest.typed.value)
        (links_held (held_by first) (map held_behind rest.links.items)) ≡ true }
    ensures { MatchResult result (IsChainOf first site rest) (λ why. why ≡ Memory the_refusal) }
{
    let TypedLinks { links, typed } = rest;
    let value = Expr::Chain {
        first: Box::new(alloc, first)?,
        rest: links,
    };
    Ok(TypedExpr {
        value: scalar(typed.value, value),
        site,
    })
}

/// The relation of a left operand and a right one that it takes, unless that is refused.
pub(crate) fn relation(alloc: Global, left: TypedExpr, right: Made<RightOperand>) -> Made<TypedExpr>
    requires related { IsRightOf (value_of left.value) right }
    ensures { MakesRelation left right result }
{
    let right = made_beside!(right, left);
    if left.typed().value.is_scalar() {
        linked(alloc, left, right)
    } else {
        Ok(compared(alloc, left, right))
    }
}

// The relation of two operands, each an ordinal or a set.
fn linked(alloc: Global, left: TypedExpr, right: RightOperand) -> Made<TypedExpr>
    requires related { relates right.operation (value_of left.value) (value_of right.operand.value) ≡ true }
    requires scalar { is_scalar_value (value_of left.value) ≡ true }
    ensures { MatchResult result (IsRelationOf right.number right.operation left right.operand)
        (λ why. why ≡ Memory the_refusal) }
{
    let site = left.site;
    let link = Link {
        number: right.number,
        operation: right.operation,
        operand: right.operand.into_scalar(),
    };
    let value = Expr::Chain {
        first: Box::new(alloc, left.into_scalar())?,
        rest: vec![in alloc; link]?,
    };
    Ok(truth(value, site))
}

// The relation of two structured operands.
fn compared(alloc: Global, left: TypedExpr, right: RightOperand) -> TypedExpr
    requires related { relates right.operation (value_of left.value) (value_of right.operand.value) ≡ true }
    requires structured { is_scalar_value (value_of left.value) ≡ false }
    ensures { IsRelationOf right.number right.operation left right.operand result }
{
    let Dyadic::Relation(relation) = right.operation else {
        unreachable!();
    };
    let (number, site) = (right.number, left.site);
    let (left, left_indexes) = left.into_whole(alloc);
    let (right, right_indexes) = right.operand.into_whole(alloc);
    let value = Expr::Compare {
        number,
        relation,
        left,
        left_indexes,
        right,
        right_indexes,
    };
    truth(value, site)
}

// An ordinal of type Boolean.
fn truth(value: Expr, site: Option<u32>) -> TypedExpr
    requires held { is_ordinal_expr value ≡ true }
    ensures is { typed_of result ≡ typed boolean site }
    ensures looks { look_value result.value ≡ look_expr value }
{
    let type_id = TypeTable::BOOLEAN;
    TypedExpr {
        value: Value::Ordinal { type_id, value },
        site,
    }
}
