ghost use Rattle.std.specs.Prelude.{◌≡◌, IfOk, map, pos};
ghost use Rattle.typed_tree.specs.WellFormed.{length_of};
ghost use Rattle.meaning.specs.declared.value.Value.TheVariants.{Number};
ghost use Rattle.meaning.specs.Effect.{number_of};
ghost use Rattle.meaning.specs.Meaning.{compared, order_of};

use crate::ordinals::{is_related, number_of};
use meaning::{Ordinal, Value};
use std::alloc::{AllocError, Global};
use typed_tree::{Relation, Whole};

/// The values of characters.
pub fn row_of(alloc: Global, characters: &[u8]) -> Result<Vec<Value>, AllocError>
    ensures { IfOk result (λ row. row.items ≡ map (λ c. Number (pos c)) characters.now) }
{
    let mut row = Vec::new(alloc);
    for character in characters {
        row.push(Value::Number(Ordinal::new(i32::from(*character))))?;
    }
    Ok(row)
}

/// How many components a whole value has.
pub fn length_of(value: &Whole) -> usize
    ensures { result ≡ length_of value.now }
{
    match value {
        Whole::Text { characters, .. } => characters.len(),
        Whole::Variable { cells, .. } => *cells as usize,
    }
}

/// The number of a relation of two strings, by their components (ISO 7185:1990, 6.7.2.5).
pub fn compared_number(relation: Relation, left: &[Value], right: &[Value]) -> Ordinal
    ensures { result ≡ compared relation left.now right.now }
{
    let order = order_between(left, right);
    Ordinal::truth(is_related(relation, order, Ordinal::new(0)))
}

// The order of two rows by their numbers, as -1, 0 or 1.
fn order_between(row: &[Value], other: &[Value]) -> Ordinal
    ensures { result ≡ order_of (map number_of row.now) (map number_of other.now) }
{
    for (place, value) in row.iter().enumerate() {
        let Some(opposite) = other.get(place) else {
            return Ordinal::new(1);
        };
        let left = number_of(*value);
        let right = number_of(*opposite);
        if left.is_less_than(right) {
            return Ordinal::new(-1);
        }
        if right.is_less_than(left) {
            return Ordinal::new(1);
        }
    }
    if row.len() < other.len() {
        Ordinal::new(-1)
    } else {
        Ordinal::new(0)
    }
}
