ghost use Rattle.std.specs.Prelude.{◌≡◌};
ghost use Rattle.meaning.specs.Effect.{is_in, is_positive, number_of};
ghost use Rattle.meaning.specs.Meaning.{calculated, combined, default_width, is_so, operated, overflow_of, relates};
ghost use Rattle.meaning.specs.Meaning.{unless_overflow};
ghost use Rattle.interpreter_state.specs.Answers.{Answers, bounds_tested, checked, index_tested};
ghost use Rattle.interpreter_state.specs.Answers.{number_tested, positive};
ghost use Rattle.interpreter_state.specs.Answers.{value_before};

use meaning::{Ordinal, Value};
use members::sets::is_within;
use typed_tree::{
    Calculation, Direction, Dyadic, ForHead, Monadic, RangeTest, Relation, Representation, Shift,
};
use types::OrdinalRange;

// The default total widths (ISO 7185:1990, 6.9.3.1).
const INTEGER_WIDTH: i32 = 10;

const BOOLEAN_WIDTH: i32 = 5;

const CHAR_WIDTH: i32 = 1;

// The least total width (6.9.3.1).
const LEAST_WIDTH: i64 = 1;

/// The number of an operation on one operand, or the site of its error (ISO 7185:1990, 6.7.2, 6.6.6).
pub fn operated_number(operation: Monadic, number: Ordinal) -> Result<Ordinal, u32>
    ensures { Answers (operated operation number) result }
{
    match operation {
        Monadic::Plain(does) => calculated_number(does, number),
        Monadic::Tested { fits, does } => shifted_number(fits, does, number),
    }
}

// What is calculated from a number, or the site of its overflow.
fn calculated_number(does: Calculation, number: Ordinal) -> Result<Ordinal, u32>
    ensures { Answers (unless_overflow (overflow_of does) (calculated does number)) result }
{
    match does {
        Calculation::Same | Calculation::Ordinal => Ok(number),
        Calculation::Negative => Ok(number.negated()),
        Calculation::Complement => Ok(Ordinal::truth(!number.is_true())),
        Calculation::Absolute => Ok(number.magnitude()),
        Calculation::Square { overflow } => number.times(number).ok_or(overflow),
        Calculation::Parity => Ok(Ordinal::truth(number.is_odd())),
    }
}

// The result behind a test, or the site of the test.
fn shifted_number(fits: RangeTest, does: Shift, number: Ordinal) -> Result<Ordinal, u32>
    ensures { Answers (operated (Monadic.Tested fits does) number) result }
{
    if !is_in(fits.range, &Value::Number(number)) {
        return Err(fits.site);
    }
    Ok(match does {
        Shift::Same => number,
        Shift::Next => number.successor(),
        Shift::Previous => number.predecessor(),
    })
}

/// The number of an operation on two numbers, or the site of its error (ISO 7185:1990, 6.7.2).
pub fn combined_number(operation: Dyadic, left: Ordinal, right: Ordinal) -> Result<Ordinal, u32>
    ensures { Answers (combined operation left right) result }
{
    match operation {
        Dyadic::Plus { overflow } => left.plus(right).ok_or(overflow),
        Dyadic::Minus { overflow } => left.minus(right).ok_or(overflow),
        Dyadic::Times { overflow } => left.times(right).ok_or(overflow),
        Dyadic::Div { by_zero } if right.number() == 0 => Err(by_zero),
        Dyadic::Div { .. } => Ok(left.quotient(right)),
        Dyadic::Mod { by_zero_or_less } if right.number() < 1 => Err(by_zero_or_less),
        Dyadic::Mod { .. } => Ok(left.modulus(right)),
        Dyadic::And => Ok(Ordinal::truth(left.is_true() && right.is_true())),
        Dyadic::Or => Ok(Ordinal::truth(left.is_true() || right.is_true())),
        Dyadic::Relation(relation) => Ok(Ordinal::truth(is_related(relation, left, right))),
        Dyadic::Union
        | Dyadic::Difference
        | Dyadic::Intersection
        | Dyadic::SetRelation(_)
        | Dyadic::In => Ok(Ordinal::new(0)),
    }
}

// Whether two ordinals are in a relation.
pub(crate) fn is_related(relation: Relation, left: Ordinal, right: Ordinal) -> bool
    ensures { result ≡ relates relation left right }
{
    match relation {
        Relation::Equal => left.equals(right),
        Relation::NotEqual => !left.equals(right),
        Relation::Less => left.is_less_than(right),
        Relation::Greater => right.is_less_than(left),
        Relation::LessOrEqual => left.is_at_most(right),
        Relation::GreaterOrEqual => right.is_at_most(left),
    }
}

/// The value, if it lies in the range of a type.
pub fn value_in(range: OrdinalRange, value: Value) -> Option<Value>
    ensures { result ≡ checked range value }
{
    is_in(range, &value).then_some(value)
}

// Whether a value lies in the range of a type.
fn is_in(range: OrdinalRange, value: &Value) -> bool
    ensures { result ≡ is_in range value.now }
{
    match value {
        Value::Number(number) => {
            number.is_integer() && number.is_within(range.first, range.last)
        }
        Value::Members(set) => is_within(*set, range.first, range.last),
    }
}

/// The bounds of a for, or nothing where they leave no value between them; or the site at which one of them is outside
/// the type of the control variable, the first tested first (ISO 7185:1990, 6.8.3.9).
pub fn tested_bounds(
    head: &ForHead,
    first: Ordinal,
    last: Ordinal,
) -> Result<Option<(i32, i32)>, u32>
    ensures { result ≡ bounds_tested head.now first last }
{
    let any = match head.direction {
        Direction::To => first.is_at_most(last),
        Direction::DownTo => last.is_at_most(first),
    };
    if any {
        let first = tested_number(head.first.fits, first)?;
        let last = tested_number(head.last.fits, last)?;
        Ok(Some((first, last)))
    } else {
        Ok(None)
    }
}

/// A number in the range of a type, or the site of its test.
pub fn tested_number(fits: RangeTest, number: Ordinal) -> Result<i32, u32>
    ensures { result ≡ number_tested fits number }
{
    match i32::try_from(number.number()) {
        Ok(inside) if is_in(fits.range, &Value::Number(number)) => Ok(inside),
        _ => Err(fits.site),
    }
}

/// The number of an index in the range of a type, or the site of its test.
pub fn tested_index(fits: RangeTest, index: Value) -> Result<i32, u32>
    ensures { result ≡ index_tested fits index }
{
    match index {
        Value::Number(number) => tested_number(fits, number),
        Value::Members(_) if is_in(fits.range, &index) => Ok(0),
        Value::Members(_) => Err(fits.site),
    }
}

/// The next value of a control variable, on its way to the last one.
pub fn value_toward(direction: Direction, last: i32, value: i32) -> Option<i32>
    ensures { result ≡ value_before direction last value }
{
    match direction {
        Direction::To if value < last => Some(value + 1),
        Direction::DownTo if last < value => Some(value - 1),
        _ => None,
    }
}

/// The number of a value.
pub fn number_of(value: Value) -> Ordinal
    ensures { result ≡ number_of value }
{
    match value {
        Value::Number(number) => number,
        Value::Members(_) => Ordinal::new(0),
    }
}

/// The truth value that a value is.
pub fn truth_of(value: Value) -> bool
    ensures { result ≡ is_so value }
{
    number_of(value).is_true()
}

/// A width that is at least 1, or the site of its test (ISO 7185:1990, 6.9.3.1).
pub fn positive_width(width: Ordinal, site: u32) -> Result<Ordinal, u32>
    ensures { Answers (positive site width) result }
{
    if LEAST_WIDTH <= width.number() {
        Ok(width)
    } else {
        Err(site)
    }
}

/// The width of a value for which none is given (ISO 7185:1990, 6.9.3.1).
pub fn width_by_default(representation: Representation) -> Ordinal
    ensures { result ≡ default_width representation }
{
    Ordinal::new(match representation {
        Representation::Char => CHAR_WIDTH,
        Representation::Integer => INTEGER_WIDTH,
        Representation::Boolean => BOOLEAN_WIDTH,
    })
}
