//! The rules of operators (ISO 7185:1990, 6.7.1 and 6.7.2).
ghost use Rattle.std.specs.Prelude.{◌≡◌, Some};
ghost use Rattle.types.specs.Types.{agree, is_compatible, is_same};
ghost use Rattle.typing_rules.specs.Typed.{whole_type, is_ordinal_of};
ghost use Rattle.typing_rules.specs.Operators.{sign_operation, operand_type, set_operation, result_of};
ghost use Rattle.typing_rules.specs.Operators.{set_operation_behind, relation_of, set_relation_of};
ghost use Rattle.typing_rules.specs.Operators.{relation_behind_value, are_alike, may_compare, may_contain, may_relate};
ghost use Rattle.typing_rules.specs.Operators.{member_of, member_with_site};

use crate::{Typed, TypedValue};
use place::Place;
use syntax_tree::{Operator, RelationalOperator, Sign};
use typed_tree::{Calculation, Dyadic, Monadic, Relation, SetRelation, TypeFault};
use types::{ArrayElement, TypeId, TypeTable};

/// The operation of a sign (6.7.2.2).
pub fn sign_operation(sign: Sign) -> Monadic
    ensures { result ≡ sign_operation sign }
{
    Monadic::Plain(match sign {
        Sign::Plus => Calculation::Same,
        Sign::Minus => Calculation::Negative,
    })
}

// The type of both operands of an operator, and of its result (6.7.2).
fn operand_type(operator: Operator) -> TypeId
    ensures { result ≡ operand_type operator }
{
    match operator {
        Operator::Plus | Operator::Minus | Operator::Times | Operator::Div | Operator::Mod => {
            TypeTable::INTEGER
        }
        Operator::And | Operator::Or => TypeTable::BOOLEAN,
    }
}

// The operation of sets that an operator tells (6.7.2.4).
fn set_operation(operator: Operator) -> Option<Dyadic>
    ensures { result ≡ set_operation operator }
{
    match operator {
        Operator::Plus => Some(Dyadic::Union),
        Operator::Minus => Some(Dyadic::Difference),
        Operator::Times => Some(Dyadic::Intersection),
        Operator::Or | Operator::Div | Operator::Mod | Operator::And => None,
    }
}

/// The operation of sets that an operator tells behind a left operand, where that is a set.
pub fn set_operation_behind(operator: Operator, left: TypedValue) -> Option<Dyadic>
    ensures { result ≡ set_operation_behind operator left }
{
    match left {
        TypedValue::Set(_) => set_operation(operator),
        TypedValue::Ordinal(_) | TypedValue::Text { .. } | TypedValue::Whole { .. } => None,
    }
}

/// The result of an operator on two operands (6.7.2.1): of its type, where both are, or else a set of both.
pub fn result_of(operator: Operator, left: TypedValue, right: TypedValue) -> Option<TypedValue>
    ensures { result ≡ result_of operator left right }
{
    match (left, right) {
        (TypedValue::Ordinal(left), TypedValue::Ordinal(right)) => {
            let wanted = operand_type(operator);
            (left.same(wanted) && right.same(wanted)).then_some(TypedValue::Ordinal(wanted))
        }
        (TypedValue::Set(left), TypedValue::Set(right)) => {
            let fits = set_operation(operator).is_some() && left.compatible(right);
            fits.then_some(TypedValue::Set(left.joined(right)))
        }
        _ => None,
    }
}

// The relation that an operator tells behind an ordinal or a string (6.7.2.5).
fn relation_of(operator: RelationalOperator) -> Dyadic
    ensures { result ≡ relation_of operator }
{
    match operator {
        RelationalOperator::Equal => Dyadic::Relation(Relation::Equal),
        RelationalOperator::NotEqual => Dyadic::Relation(Relation::NotEqual),
        RelationalOperator::Less => Dyadic::Relation(Relation::Less),
        RelationalOperator::Greater => Dyadic::Relation(Relation::Greater),
        RelationalOperator::LessOrEqual => Dyadic::Relation(Relation::LessOrEqual),
        RelationalOperator::GreaterOrEqual => Dyadic::Relation(Relation::GreaterOrEqual),
        RelationalOperator::In => Dyadic::In,
    }
}

// The relation that an operator tells behind a set.
fn set_relation_of(operator: RelationalOperator) -> Option<Dyadic>
    ensures { result ≡ set_relation_of operator }
{
    match operator {
        RelationalOperator::Equal => Some(Dyadic::SetRelation(SetRelation::Equal)),
        RelationalOperator::NotEqual => Some(Dyadic::SetRelation(SetRelation::NotEqual)),
        RelationalOperator::LessOrEqual => Some(Dyadic::SetRelation(SetRelation::Included)),
        RelationalOperator::GreaterOrEqual => Some(Dyadic::SetRelation(SetRelation::Includes)),
        RelationalOperator::Less | RelationalOperator::Greater | RelationalOperator::In => None,
    }
}

/// The relation that an operator tells behind a left operand: none where that is a set, and the operator is `<`, `>` or
/// `in`.
pub fn relation_behind(operator: RelationalOperator, left: TypedValue) -> Option<Dyadic>
    ensures { result ≡ relation_behind_value operator left }
{
    match left {
        TypedValue::Set(_) => set_relation_of(operator),
        TypedValue::Ordinal(_) | TypedValue::Text { .. } | TypedValue::Whole { .. } => {
            Some(relation_of(operator))
        }
    }
}

/// Whether an operator relates two operands (6.7.2.5).
pub fn may_relate(
    types: &TypeTable,
    operator: RelationalOperator,
    left: Typed,
    right: Typed,
) -> bool
    ensures { result ≡ may_relate types.now operator left right }
{
    match operator {
        RelationalOperator::In => may_contain(left.value, right.value),
        _ => may_compare(types, left.value, right.value),
    }
}

// Whether an ordinal may be a member of a set.
fn may_contain(left: TypedValue, right: TypedValue) -> bool
    ensures { result ≡ may_contain left right }
{
    match (left, right) {
        (TypedValue::Ordinal(type_id), TypedValue::Set(base)) => agrees(base.host, type_id),
        _ => false,
    }
}

// Whether a host type is this one, as far as it is told.
fn agrees(host: Option<TypeId>, type_id: TypeId) -> bool
    ensures { result ≡ agree is_same host (Some type_id) }
{
    host.is_none_or(|host| host.same(type_id))
}

// Whether two ordinals, two sets or two strings may be compared.
fn may_compare(types: &TypeTable, left: TypedValue, right: TypedValue) -> bool
    ensures { result ≡ may_compare types.now left right }
{
    match (left, right) {
        (TypedValue::Ordinal(left), TypedValue::Ordinal(right)) => types.compatible(left, right),
        (TypedValue::Set(left), TypedValue::Set(right)) => left.compatible(right),
        _ => are_alike(types, left, right),
    }
}

// Whether two values are strings of one length, of compatible types.
fn are_alike(types: &TypeTable, left: TypedValue, right: TypedValue) -> bool
    ensures { result ≡ are_alike types.now (whole_type left) (whole_type right) }
{
    match (left.whole_type(), right.whole_type()) {
        (Some((left, length)), Some((right, other))) => {
            length == other && types.compatible(left, right) && types.is_string(left)
        }
        _ => false,
    }
}

/// Whether a value may be the index of an element: an ordinal that is compatible with the index type (6.5.3.2).
pub fn may_index(types: &TypeTable, element: ArrayElement, value: Typed) -> bool
    ensures { result ≡ is_ordinal_of (is_compatible types.now element.index) value }
{
    value
        .value
        .ordinal_type()
        .is_some_and(|type_id| types.compatible(element.index, type_id))
}

/// A member of a set, by the host type of those before it (6.7.1): K1 at the place where it is no ordinal of that type.
pub fn member_of(host: Option<TypeId>, place: Place, member: Typed) -> Result<TypeId, TypeFault>
    ensures { result ≡ member_of host place member }
{
    match member.value.ordinal_type() {
        Some(type_id) if agrees(host, type_id) => Ok(type_id),
        _ => Err(TypeFault::Mismatch(place)),
    }
}

/// The same with its leading site.
pub fn member_with_site(
    host: Option<TypeId>,
    place: Place,
    member: Typed,
) -> Result<(u32, TypeId), TypeFault>
    ensures { result ≡ member_with_site host place member }
{
    let type_id = member_of(host, place, member)?;
    let site = member.site.ok_or(TypeFault::Mismatch(place))?;
    Ok((site, type_id))
}
