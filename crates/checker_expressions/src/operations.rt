//! Operations and tests, which enter nothing.
ghost use Rattle.std.specs.Prelude.{◌≡◌};
ghost use Rattle.checker_state.specs.Values.{known_range, operated_sets};
ghost use Rattle.checker_expressions.specs.View.{FlowGoes};
ghost use Rattle.checker_expressions.specs.Walk.{calculated_both, combined, divides, divisor, hull_known, index_test};
ghost use Rattle.checker_expressions.specs.Walk.{operated, positive, unless_overflow, width_test};

use crate::results::{calculated, of_both, overflow_of, overflow_of_both, shifted};
use crate::{Flow, hull};
use checker_rows::limits;
use checker_state::{Known, operated_sets};
use domain::{Hull, Interval};
use members::sets::Operator;
use typed_tree::{Dyadic, Monadic, RangeTest};

impl<'a> Flow<'a> {
    /// The test of an index, if selectors take it: where it lies then.
    pub(crate) fn index(&mut self, fits: Option<RangeTest>, known: Known) -> Interval
        ensures { FlowGoes (index_test fits known) self.old self.new result }
    {
        match fits {
            None => known.range(),
            Some(fits) => self.fitting(fits, known).range(),
        }
    }

    /// What an operation gives for a value.
    pub(crate) fn operated(&mut self, operation: Monadic, known: Known) -> Known
        ensures { FlowGoes (operated operation known) self.old self.new result }
    {
        let range = known.range();
        match operation {
            Monadic::Plain(does) => self.unless_overflow(
                overflow_of(does),
                calculated(does, range),
            ),
            Monadic::Tested { fits, does } => {
                let passed = self.within(limits(fits.range), fits.site, range);
                Known::Ordinal(shifted(does, passed))
            }
        }
    }

    /// What an operation gives for two values: for two sets (ISO 7185:1990, 6.7.2.4), a relation of them or a member
    /// and a set (6.7.2.5), or else for two numbers.
    pub(crate) fn combined(&mut self, operation: Dyadic, left: Known, right: Known) -> Known
        ensures { FlowGoes (combined operation left right) self.old self.new result }
    {
        match operation {
            Dyadic::Plus { .. } => self.calculated_both(operation, left, right),
            Dyadic::Minus { .. } => self.calculated_both(operation, left, right),
            Dyadic::Times { .. } => self.calculated_both(operation, left, right),
            Dyadic::Div { .. } => self.calculated_both(operation, left, right),
            Dyadic::Mod { .. } => self.calculated_both(operation, left, right),
            Dyadic::And => self.calculated_both(operation, left, right),
            Dyadic::Or => self.calculated_both(operation, left, right),
            Dyadic::Relation(_) => self.calculated_both(operation, left, right),
            Dyadic::Union => Known::Set(of_sets(Operator::Union, left, right)),
            Dyadic::Difference => Known::Set(of_sets(Operator::Difference, left, right)),
            Dyadic::Intersection => Known::Set(of_sets(Operator::Intersection, left, right)),
            Dyadic::SetRelation(_) => Known::Ordinal(Interval::TRUTH_VALUES),
            Dyadic::In => Known::Ordinal(Interval::TRUTH_VALUES),
        }
    }

    /// What an operation gives for two numbers.
    fn calculated_both(&mut self, operation: Dyadic, left: Known, right: Known) -> Known
        ensures { FlowGoes (calculated_both operation (known_range left) (known_range right)) self.old self.new result }
    {
        let left = left.range();
        let passed = self.divides(operation, right.range());
        self.unless_overflow(
            overflow_of_both(operation),
            of_both(operation, left, passed),
        )
    }

    /// The test of a right operand, where it is a divisor.
    fn divides(&mut self, operation: Dyadic, range: Interval) -> Interval
        ensures { FlowGoes (divides operation range) self.old self.new result }
    {
        match operation {
            Dyadic::Plus { .. } => range,
            Dyadic::Minus { .. } => range,
            Dyadic::Times { .. } => range,
            Dyadic::Div { by_zero } => self.divisor(by_zero, range),
            Dyadic::Mod { by_zero_or_less } => self.positive(by_zero_or_less, range),
            Dyadic::And => range,
            Dyadic::Or => range,
            Dyadic::Relation(_) => range,
            Dyadic::Union => range,
            Dyadic::Difference => range,
            Dyadic::Intersection => range,
            Dyadic::SetRelation(_) => range,
            Dyadic::In => range,
        }
    }

    /// A result that has to be an integer, where its overflow has a site.
    fn unless_overflow(&mut self, overflow: Option<u32>, range: Interval) -> Known
        ensures { FlowGoes (unless_overflow overflow range) self.old self.new result }
    {
        match overflow {
            None => Known::Ordinal(range),
            Some(site) => Known::Ordinal(self.within(Interval::INTEGER, site, range)),
        }
    }

    /// A width has to be at least 1.
    pub(crate) fn width_test(&mut self, site: u32, known: Known)
        ensures { FlowGoes (width_test site known) self.old self.new tt }
    {
        let range = known.range();
        self.positive(site, range);
    }

    /// A number that has to be at least 1.
    fn positive(&mut self, site: u32, range: Interval) -> Interval
        ensures { FlowGoes (positive site range) self.old self.new result }
    {
        self.test(1 <= range.first(), site, range.at_least(1))
    }

    /// A divisor, which may not be 0.
    fn divisor(&mut self, site: u32, range: Interval) -> Interval
        ensures { FlowGoes (divisor site range) self.old self.new result }
    {
        self.test(!range.has(0), site, range.without_zero_end())
    }
}

/// The hull of what an operator gives for two sets.
fn of_sets(operator: Operator, left: Known, right: Known) -> Hull
    ensures { result ≡ operated_sets operator (hull_known left) (hull_known right) }
{
    operated_sets(operator, &hull(left), &hull(right))
}
