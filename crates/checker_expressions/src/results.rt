ghost use Rattle.std.specs.Prelude.{◌≡◌};
ghost use Rattle.domain.specs.Interval.{held};
ghost use Rattle.checker_expressions.specs.View.{IsRangeOf};
ghost use Rattle.checker_expressions.specs.Walk.{calculated, of_both, shifted};
ghost use Rattle.meaning.specs.Meaning.{overflow_of, overflow_of_both};

use domain::Interval;
use typed_tree::{Calculation, Dyadic, Shift};

/// The range of what is calculated from the numbers of a range (ISO 7185:1990, 6.7.2.2, 6.7.2.3, 6.6.6).
pub(crate) fn calculated(does: Calculation, range: Interval) -> Interval
    ensures { IsRangeOf (overflow_of does) result (calculated does range) }
{
    match does {
        Calculation::Same => range,
        Calculation::Negative => range.negate(),
        Calculation::Complement => range.complement(),
        Calculation::Absolute => range.absolute(),
        Calculation::Square { .. } => range.square(),
        Calculation::Parity => Interval::TRUTH_VALUES,
        Calculation::Ordinal => range,
    }
}

/// The site of a calculation whose result has to be an integer.
pub(crate) fn overflow_of(does: Calculation) -> Option<u32>
    ensures { result ≡ overflow_of does }
{
    match does {
        Calculation::Same => None,
        Calculation::Negative => None,
        Calculation::Complement => None,
        Calculation::Absolute => None,
        Calculation::Square { overflow } => Some(overflow),
        Calculation::Parity => None,
        Calculation::Ordinal => None,
    }
}

/// The range behind a test; ends beyond the greatest or the least are held there.
pub(crate) fn shifted(does: Shift, range: Interval) -> Interval
    ensures { result ≡ held (shifted does range) }
{
    match does {
        Shift::Same => range,
        Shift::Next => range.add(&Interval::between(1, 1)),
        Shift::Previous => range.subtract(&Interval::between(1, 1)),
    }
}

/// The range of what is calculated from a number of each range (6.7.2); the operations of sets calculate none.
pub(crate) fn of_both(operation: Dyadic, left: Interval, right: Interval) -> Interval
    ensures { IsRangeOf (overflow_of_both operation) result (of_both operation left right) }
{
    match operation {
        Dyadic::Plus { .. } => left.add(&right),
        Dyadic::Minus { .. } => left.subtract(&right),
        Dyadic::Times { .. } => left.multiply(&right),
        Dyadic::Div { .. } => left.divide(&right),
        Dyadic::Mod { .. } => left.remainder(&right),
        Dyadic::And => left.both(&right),
        Dyadic::Or => left.either(&right),
        Dyadic::Relation(_) => Interval::TRUTH_VALUES,
        Dyadic::Union => Interval::TRUTH_VALUES,
        Dyadic::Difference => Interval::TRUTH_VALUES,
        Dyadic::Intersection => Interval::TRUTH_VALUES,
        Dyadic::SetRelation(_) => Interval::TRUTH_VALUES,
        Dyadic::In => Interval::TRUTH_VALUES,
    }
}

/// The site of an operation whose result has to be an integer.
pub(crate) fn overflow_of_both(operation: Dyadic) -> Option<u32>
    ensures { result ≡ overflow_of_both operation }
{
    match operation {
        Dyadic::Plus { overflow } => Some(overflow),
        Dyadic::Minus { overflow } => Some(overflow),
        Dyadic::Times { overflow } => Some(overflow),
        Dyadic::Div { .. } => None,
        Dyadic::Mod { .. } => None,
        Dyadic::And => None,
        Dyadic::Or => None,
        Dyadic::Relation(_) => None,
        Dyadic::Union => None,
        Dyadic::Difference => None,
        Dyadic::Intersection => None,
        Dyadic::SetRelation(_) => None,
        Dyadic::In => None,
    }
}
