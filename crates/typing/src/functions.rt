//! The required functions, by their rows (ISO 7185:1990, 6.6.6).
ghost use Rattle.std.specs.Prelude.{◌≡◌};
ghost use Rattle.typing.specs.Functions.{all_but_first, all_but_last, applied, given_type, is_taken};
ghost use Rattle.typing.specs.Functions.{operation_on, passing_values, shift_of, test_kind};

use crate::{Made, Typer};
use place::Place;
use scopes::{
    FunctionArgument, FunctionOperation, FunctionTest, FunctionType, FunctionValue,
    RequiredFunction,
};
use typed_tree::{Calculation, Monadic, RangeTest, Scalar, Shift, SiteKind, TypeFault};
use types::{OrdinalRange, TypeId, TypeTable};
use typing_rules::{Typed, TypedValue};

/// The operation of a function at its name, before its argument: the values that pass a test depend on that.
#[derive(Clone, Copy)]
pub enum BegunFunction {
    Calculates(Calculation),
    Tests { site: u32, test: FunctionTest },
}

// Whether a value of a type is taken.
fn is_taken(types: &TypeTable, takes: FunctionArgument, id: TypeId) -> bool
    ensures { result ≡ is_taken types.now takes id }
{
    match takes {
        FunctionArgument::Integer => id.same(TypeTable::INTEGER),
        FunctionArgument::Ordinal => types.is_ordinal(id),
    }
}

// The type of the result, by that of the argument.
fn given_type(gives: FunctionType, argument: TypeId) -> TypeId
    ensures { result ≡ given_type gives argument }
{
    match gives {
        FunctionType::Integer => TypeTable::INTEGER,
        FunctionType::Boolean => TypeTable::BOOLEAN,
        FunctionType::Char => TypeTable::CHAR,
        FunctionType::OfArgument => argument,
    }
}

// The kind of a test's site.
fn test_kind(test: FunctionTest) -> SiteKind
    ensures { result ≡ test_kind test }
{
    match test {
        FunctionTest::Character => SiteKind::Chr,
        FunctionTest::Next => SiteKind::Succ,
        FunctionTest::Previous => SiteKind::Pred,
    }
}

// What comes of a number that passed a test.
fn shift_of(test: FunctionTest) -> Shift
    ensures { result ≡ shift_of test }
{
    match test {
        FunctionTest::Character => Shift::Same,
        FunctionTest::Next => Shift::Next,
        FunctionTest::Previous => Shift::Previous,
    }
}

const NO_VALUES: OrdinalRange = OrdinalRange { first: 1, last: 0 };

// The values that have a next one; a value that stands alone has none.
fn all_but_last(values: OrdinalRange) -> OrdinalRange
    ensures { result ≡ all_but_last values }
{
    if values.first >= values.last {
        return NO_VALUES;
    }
    OrdinalRange {
        last: values.last - 1,
        ..values
    }
}

// The values that have one before them.
fn all_but_first(values: OrdinalRange) -> OrdinalRange
    ensures { result ≡ all_but_first values }
{
    if values.first >= values.last {
        return NO_VALUES;
    }
    OrdinalRange {
        first: values.first + 1,
        ..values
    }
}

// The values that pass a test, by those of the argument's type.
fn passing_values(test: FunctionTest, values: Option<OrdinalRange>) -> OrdinalRange
    ensures { result ≡ passing_values test values }
{
    match (test, values) {
        (FunctionTest::Character, _) => OrdinalRange {
            first: 0,
            last: 127,
        },
        (FunctionTest::Next, Some(values)) => all_but_last(values),
        (FunctionTest::Previous, Some(values)) => all_but_first(values),
        (_, None) => NO_VALUES,
    }
}

// An operation that began, on an argument of a type.
fn operation_on(types: &TypeTable, argument: TypeId, begun: BegunFunction) -> Monadic
    ensures { result ≡ operation_on types.now argument begun }
{
    match begun {
        BegunFunction::Calculates(does) => Monadic::Plain(does),
        BegunFunction::Tests { site, test } => Monadic::Tested {
            fits: RangeTest {
                site,
                tests: Scalar::Ordinal,
                range: passing_values(test, types.range(argument)),
            },
            does: shift_of(test),
        },
    }
}

impl Typer {
    ghost use Rattle.typing.specs.Outcomes.{TypingTakes};
    ghost use Rattle.typing.specs.Functions as spec;

    /// What a function calculates, with the site of a square's overflow at the function's name.
    #[tactic(auto, unfolding(crate::specs::Functions::calculation_of))]
    fn calculation(&mut self, value: FunctionValue, place: Place) -> Made<Calculation>
        ensures { TypingTakes (spec.calculation_of value place self.old) result self.new }
    {
        Ok(match value {
            FunctionValue::Same => Calculation::Ordinal,
            FunctionValue::Absolute => Calculation::Absolute,
            FunctionValue::Square => Calculation::Square {
                overflow: self.site(SiteKind::Overflow, place)?,
            },
            FunctionValue::Parity => Calculation::Parity,
        })
    }

    /// The operation of a function at the place of its name, where its site stands.
    #[tactic(auto, unfolding(crate::specs::Functions::begins_as))]
    pub fn begin_function(&mut self, does: FunctionOperation, place: Place) -> Made<BegunFunction>
        ensures { TypingTakes (spec.begins_as does place self.old) result self.new }
    {
        Ok(match does {
            FunctionOperation::Calculates(value) => {
                BegunFunction::Calculates(self.calculation(value, place)?)
            }
            FunctionOperation::Tests(test) => BegunFunction::Tests {
                site: self.site(test_kind(test), place)?,
                test,
            },
        })
    }

    /// What a function does to its argument, and the type of its result: K1 at the place where it doesn't take the
    /// argument.
    pub fn applied(
        &self,
        function: RequiredFunction,
        begun: BegunFunction,
        place: Place,
        argument: Typed,
    ) -> Made<(Monadic, TypeId)>
        ensures { result ≡ applied self.now.types function begun place argument }
    {
        match argument.value {
            TypedValue::Ordinal(id) if is_taken(&self.types, function.takes, id) => {
                let operation = operation_on(&self.types, id, begun);
                Ok((operation, given_type(function.gives, id)))
            }
            _ => Err(TypeFault::Mismatch(place)),
        }
    }
}
