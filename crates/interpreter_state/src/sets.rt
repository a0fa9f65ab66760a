ghost use Rattle.std.specs.Prelude.{◌≡◌, option_map};
ghost use Rattle.members.specs.Members as sets;
ghost use Rattle.meaning.specs.declared.value.Value.TheVariants.{Number};
ghost use Rattle.meaning.specs.Effect.{members_of};
ghost use Rattle.meaning.specs.Meaning.{operated_both, way_of, with_one, with_range};
ghost use Rattle.interpreter_state.specs.Answers.{Answers, member_at, numbers_both};

use crate::ordinals::{combined_number, number_of};
use meaning::{Ordinal, Value};
use members::sets::{Operator, Relation, can_be_member, has, of_one, of_range};
use typed_tree::{Dyadic, SetRelation};

/// The set that a value is.
pub fn members_of(value: Value) -> u128
    ensures { result ≡ members_of value }
{
    match value {
        Value::Number(_) => 0,
        Value::Members(set) => set,
    }
}

/// The value of an operation on two operands, or the site of its error (ISO 7185:1990, 6.7.2).
pub fn operated_value(operation: Dyadic, left: Value, right: Value) -> Result<Value, u32>
    ensures { Answers (operated_both operation left right) result }
{
    match operation {
        Dyadic::Union => Ok(of_sets(Operator::Union, left, right)),
        Dyadic::Difference => Ok(of_sets(Operator::Difference, left, right)),
        Dyadic::Intersection => Ok(of_sets(Operator::Intersection, left, right)),
        Dyadic::SetRelation(relation) => {
            let holds = way_of(relation).holds(members_of(left), members_of(right));
            Ok(Value::Number(Ordinal::truth(holds)))
        }
        Dyadic::In => {
            let holds = is_member(members_of(right), number_of(left));
            Ok(Value::Number(Ordinal::truth(holds)))
        }
        Dyadic::Plus { .. }
        | Dyadic::Minus { .. }
        | Dyadic::Times { .. }
        | Dyadic::Div { .. }
        | Dyadic::Mod { .. }
        | Dyadic::And
        | Dyadic::Or
        | Dyadic::Relation(_) => of_numbers(operation, left, right),
    }
}

// What an operator of two sets gives.
fn of_sets(operator: Operator, left: Value, right: Value) -> Value
    ensures { result ≡ Value.Members (sets.of_two operator (members_of left) (members_of right)) }
{
    Value::Members(operator.of(members_of(left), members_of(right)))
}

// The value of an operation on two numbers, or the site of its error.
fn of_numbers(operation: Dyadic, left: Value, right: Value) -> Result<Value, u32>
    ensures { Answers (numbers_both operation left right) result }
{
    combined_number(operation, number_of(left), number_of(right)).map(Value::Number)
}

// How one set has to stand to another in a relation of sets.
fn way_of(relation: SetRelation) -> Relation
    ensures { result ≡ way_of relation }
{
    match relation {
        SetRelation::Equal => Relation::Equal,
        SetRelation::NotEqual => Relation::NotEqual,
        SetRelation::Included => Relation::Inside,
        SetRelation::Includes => Relation::Around,
    }
}

// Whether a number is a member of a set (6.7.2.5).
fn is_member(set: u128, number: Ordinal) -> bool
    ensures { result ≡ sets.has set number }
{
    match member_at(number) {
        Some(place) => has(set, place),
        None => false,
    }
}

// The number, if it can be a member.
fn member_at(number: Ordinal) -> Option<i32>
    ensures { result ≡ member_at number }
{
    i32::try_from(number.number())
        .ok()
        .filter(|place| can_be_member(*place))
}

/// A set with one member more, or the site of its test (6.7.1).
pub fn with_one(site: u32, member: Ordinal, set: u128) -> Result<u128, u32>
    ensures { Answers (with_one site (Number member) set) result }
{
    let place = member_at(member).ok_or(site)?;
    Ok(Operator::Union.of(set, of_one(place)))
}

/// A set with all members from a first to a last one, or the site of their test (6.7.1).
pub fn with_range(site: u32, first: Ordinal, last: Ordinal, set: u128) -> Result<u128, u32>
    ensures { Answers (with_range site (Number first) (Number last) set) result }
{
    match (member_at(first), member_at(last)) {
        (Some(low), Some(high)) => Ok(Operator::Union.of(set, of_range(low, high))),
        _ => {
            if last.is_less_than(first) {
                Ok(set)
            } else {
                Err(site)
            }
        }
    }
}
