//! The walk over an expression, form by form.
ghost use Rattle.std.specs.Prelude.{◌≡◌, ◌++◌, ◌∷◌, ℕ, [], map};
ghost use Rattle.typed_tree.specs.Accesses.{origin_by};
ghost use Rattle.typed_tree.specs.Entries.{access_entries, call_entries, entries_of_expression, entries_of_parameter};
ghost use Rattle.typed_tree.specs.Entries.{entries_of_passed, entries_of_width, entries_of_written, index_entries};
ghost use Rattle.typed_tree.specs.Entries.{joined, whole_entries};
ghost use Rattle.checker_calls.specs.Actuals.{unknown_index};
ghost use Rattle.checker_calls.specs.View.{said_actual};
ghost use Rattle.checker_state.specs.Stores.{entire};
ghost use Rattle.checker_state.specs.View.{said_form, said_index, said_reach};
ghost use Rattle.checker_expressions.specs.View.{FlowGoes, entries_of_link};
ghost use Rattle.checker_expressions.specs.Visits.{all_counted};
ghost use Rattle.checker_expressions.specs.Walk.{access_walk, actuals_walk, behind_next, behind_steps, call_walk};
ghost use Rattle.checker_expressions.specs.Walk.{begin_at_element, deeper};
ghost use Rattle.checker_expressions.specs.Walk.{form_before_by, give};
ghost use Rattle.checker_expressions.specs.Walk.{function_walk, in_turn, index_pieces, indexes_walk, is_kept};
ghost use Rattle.checker_expressions.specs.Walk.{link_walk};
ghost use Rattle.checker_expressions.specs.Walk.{members_walk, next_test, none_gathered, parameter_walk};
ghost use Rattle.checker_expressions.specs.Walk.{passed_piece_of, piece_of, reach_at, related_walk};
ghost use Rattle.checker_expressions.specs.Walk.{value_walk, variable_walk, whole_walk, width_walk, written_walk};
ghost use Rattle.checker_rows.specs.Rows.{is_ordinal_variable};

use crate::gathering::Gathering;
use crate::{Count, Flow};
use checker_calls::Actual;
use checker_rows::Rows;
use checker_state::{Bound, Index, Indexes, Known, Reach, bound_form};
use domain::{Extension, Hull, Interval, Version};
use typed_tree::{
    Access, Base, Call, Designator, Expr, Link, Passed, PathStep, RangeTest, Scalar, Selector,
    Whole, Width, WriteParameter, Written, actuals_hold_call, hold_call,
};

impl<'a> Flow<'a> {
    /// What is known of an expression's value (ISO 7185:1990, 6.7).
    #[cycle(expression)]
    pub fn expression<C: Count>(&mut self, expression: &Expr, visits: &mut C) -> Known
        ensures goes { FlowGoes (value_walk expression.now) self.old self.new result }
        ensures counts { visits.new ≡ all_counted C.counted (entries_of_expression expression.now) visits.old }
    {
        match expression {
            Expr::Constant { number, value } => {
                visits.tick(*number);
                Known::Ordinal(Interval::between(*value, *value))
            }
            Expr::Variable {
                access,
                indexes,
                holds,
                defined,
            } => self.variable(*holds, access, indexes, *defined, visits),
            Expr::Set {
                number,
                designators,
                members,
            } => {
                visits.tick(*number);
                Known::Set(self.members(designators, members, visits))
            }
            Expr::Monadic {
                number,
                operation,
                operand,
            } => {
                visits.tick(*number);
                let known = self.expression(operand, visits);
                self.operated(*operation, known)
            }
            Expr::Chain { first, rest } => {
                let known = self.expression(first, visits);
                self.in_turn(rest, known, visits)
            }
            Expr::Compare {
                number,
                left,
                left_indexes,
                right,
                right_indexes,
                ..
            } => {
                self.whole_value(left, left_indexes, visits);
                self.related(*number, right, right_indexes, visits)
            }
            Expr::Call { call, actuals } => self.function(*call, actuals, visits),
            Expr::Input { number, .. } => {
                visits.tick(*number);
                Known::Ordinal(Interval::TRUTH_VALUES)
            }
        }
    }

    /// Operators with their right operands, from left to right, behind what is known of the first one.
    #[cycle(expression)]
    fn in_turn<C: Count>(&mut self, links: &[Link], left: Known, visits: &mut C) -> Known
        ensures goes { FlowGoes (in_turn (map link_walk links.now) left) self.old self.new result }
        ensures counts { visits.new ≡ all_counted C.counted (joined (map entries_of_link links.now)) visits.old }
    {
        let mut known = left;
        for link in links {
            known = self.link(link, known, visits);
        }
        known
    }

    /// An operator and its right operand, by what is known to its left.
    #[cycle(expression)]
    fn link<C: Count>(&mut self, link: &Link, left: Known, visits: &mut C) -> Known
        ensures goes { FlowGoes (link_walk link.now left) self.old self.new result }
        ensures counts { visits.new ≡ all_counted C.counted (entries_of_link link.now) visits.old }
    {
        visits.tick(link.number);
        let right = self.expression(&link.operand, visits);
        self.combined(link.operation, left, right)
    }

    /// The value of a variable or of a component.
    #[cycle(expression)]
    fn variable<C: Count>(
        &mut self,
        holds: Scalar,
        access: &Access,
        indexes: &[Expr],
        defined: u32,
        visits: &mut C,
    ) -> Known
        ensures goes { FlowGoes (variable_walk holds access.now (index_pieces indexes.now) defined)
            self.old self.new result }
        ensures counts { visits.new ≡ all_counted C.counted (access_entries access.now (index_entries indexes.now))
            visits.old }
    {
        let reach = self.access(access, indexes, visits);
        self.used(holds, access, &reach, defined)
    }

    /// The member expressions of a set constructor (6.7.1): the hull of the set.
    #[cycle(expression)]
    fn members<C: Count>(
        &mut self,
        designators: &[Designator],
        members: &[Expr],
        visits: &mut C,
    ) -> Hull
        ensures goes { FlowGoes (members_walk (index_pieces members.now) (none_gathered designators.now))
            self.old self.new result }
        ensures counts { visits.new ≡ all_counted C.counted (joined (index_entries members.now)) visits.old }
    {
        let mut gathering = Gathering::of(designators);
        for member in members {
            let known = self.expression(member, visits);
            gathering = self.gathered(gathering, known.range());
        }
        gathering.hull
    }

    /// A relation of two whole values behind the left one: the operator is entered between them.
    #[cycle(expression)]
    fn related<C: Count>(
        &mut self,
        number: u32,
        right: &Whole,
        indexes: &[Expr],
        visits: &mut C,
    ) -> Known
        ensures goes { FlowGoes (related_walk number right.now (index_pieces indexes.now)) self.old self.new result }
        ensures counts { visits.new
            ≡ all_counted C.counted (number ∷ whole_entries right.now (index_entries indexes.now)) visits.old }
    {
        visits.tick(number);
        self.whole_value(right, indexes, visits);
        Known::Ordinal(Interval::TRUTH_VALUES)
    }

    /// A whole value, with its index expressions (6.4.3): the ranges of its components, row by row. A string is only
    /// entered; its characters lie in one range.
    #[cycle(expression)]
    pub fn whole_value<C: Count>(
        &mut self,
        value: &Whole,
        indexes: &[Expr],
        visits: &mut C,
    ) -> Vec<Interval>
        ensures goes { FlowGoes (whole_walk value.now (index_pieces indexes.now)) self.old self.new result.items }
        ensures counts { visits.new ≡ all_counted C.counted (whole_entries value.now (index_entries indexes.now))
            visits.old }
    {
        match value {
            Whole::Text { number, characters } => {
                visits.tick(*number);
                self.text(characters)
            }
            Whole::Variable {
                access,
                type_id,
                defined,
                ..
            } => {
                let reach = self.access(access, indexes, visits);
                self.used_whole(*type_id, access, &reach, *defined)
            }
        }
    }

    /// A variable access with its index expressions (6.5.1): what it reaches of the rows under it.
    #[cycle(expression)]
    pub fn access<C: Count>(&mut self, access: &Access, indexes: &[Expr], visits: &mut C) -> Reach
        ensures goes { FlowGoes (access_walk access.now (index_pieces indexes.now)) self.old self.new
            (said_reach result) }
        ensures counts { visits.new ≡ all_counted C.counted (access_entries access.now (index_entries indexes.now))
            visits.old }
    {
        visits.tick(access.number);
        let reach = begun(&access.base);
        self.indexes(&access.selectors, indexes, reach, visits)
    }

    /// Index expressions, each of which is tested at once: what is reached by them, from where an access begins on.
    #[cycle(expression)]
    fn indexes<C: Count>(
        &mut self,
        selectors: &[Selector],
        indexes: &[Expr],
        begun: Reach,
        visits: &mut C,
    ) -> Reach
        ensures goes { FlowGoes (indexes_walk selectors.now (index_pieces indexes.now) (said_reach begun))
            self.old self.new (said_reach result) }
        ensures counts { visits.new ≡ all_counted C.counted (joined (index_entries indexes.now)) visits.old }
    {
        let mut left = selectors;
        let mut reach = begun;
        for i in 0..indexes.len() {
            let index = &indexes[i];
            let known = self.expression(index, visits);
            let range = self.index(next_test(left), known);
            let form = form_before(
                self.grounds.version,
                self.state.table(),
                index,
                &indexes[i + 1..],
            );
            let keeps = is_kept(self.grounds.version, left);
            reach = deeper(keeps, Index { form, range }, reach);
            left = behind_next(left);
        }
        reach
    }

    /// The value of a function that is called (6.7.3).
    #[cycle(expression)]
    fn function<C: Count>(&mut self, call: Call, actuals: &[Passed], visits: &mut C) -> Known
        ensures goes { FlowGoes (function_walk call (map passed_piece_of actuals.now)) self.old self.new result }
        ensures counts { visits.new ≡ all_counted C.counted (call_entries call (map entries_of_passed actuals.now))
            visits.old }
    {
        self.call(call, actuals, visits);
        self.result(call)
    }

    /// A call of a routine, with its actual parameters (6.7.3, 6.8.2.3).
    #[cycle(expression)]
    pub fn call<C: Count>(&mut self, call: Call, actuals: &[Passed], visits: &mut C)
        ensures goes { FlowGoes (call_walk call (map passed_piece_of actuals.now)) self.old self.new tt }
        ensures counts { visits.new ≡ all_counted C.counted (call_entries call (map entries_of_passed actuals.now))
            visits.old }
    {
        visits.tick(call.number);
        let passed = self.actuals(actuals, visits);
        self.called(call, actuals_hold_call(actuals), passed);
    }

    /// Actual parameters, from left to right.
    #[cycle(expression)]
    pub fn actuals<'b, C: Count>(
        &mut self,
        actuals: &'b [Passed],
        visits: &mut C,
    ) -> Vec<Actual<'b>>
        ensures goes { FlowGoes (actuals_walk (map passed_piece_of actuals.now))
            self.old self.new (map said_actual result.items) }
        ensures counts { visits.new ≡ all_counted C.counted (joined (map entries_of_passed actuals.now)) visits.old }
    {
        let mut passed = Vec::new(*self.open_ids.allocator());
        for actual in actuals {
            let one = self.actual(actual, visits);
            self.pass(one, &mut passed);
        }
        passed
    }

    /// Puts an actual parameter behind others.
    fn pass<'b>(&mut self, actual: Actual<'b>, passed: &mut Vec<Actual<'b>>)
        ensures { FlowGoes (give (map said_actual passed.old.items ++ said_actual actual.entry ∷ [])) self.old self.new
            (map said_actual passed.new.items) }
    {
        if let Err(error) = passed.push(actual) {
            self.state.run_short(error.into());
        }
    }

    /// An actual parameter (6.6.3): a value is tested at once.
    #[cycle(expression)]
    fn actual<'b, C: Count>(&mut self, actual: &'b Passed, visits: &mut C) -> Actual<'b>
        ensures goes { FlowGoes (passed_piece_of actual.now).walk self.old self.new (said_actual result) }
        ensures counts { visits.new ≡ all_counted C.counted (entries_of_passed actual.now) visits.old }
    {
        match actual {
            Passed::Value { value, fits } => {
                let known = self.expression(value, visits);
                let range = self.fitting(*fits, known).range();
                Actual::Value {
                    range,
                    form: bound_form(self.grounds.version, self.state.table(), value),
                }
            }
            Passed::Whole { value, indexes, .. } => {
                Actual::Rows(self.whole_value(value, indexes, visits))
            }
            Passed::Reference {
                access,
                indexes,
                ..
            } => Actual::Variable {
                access,
                reach: self.access(access, indexes, visits),
            },
        }
    }

    /// A value that is written, and then its width.
    pub fn parameter<C: Count>(&mut self, parameter: &WriteParameter, visits: &mut C)
        ensures goes { FlowGoes (parameter_walk parameter.now) self.old self.new tt }
        ensures counts { visits.new ≡ all_counted C.counted (entries_of_parameter parameter.now) visits.old }
    {
        self.written(&parameter.value, visits);
        self.width(&parameter.width, visits);
    }

    /// A value that is written.
    fn written<C: Count>(&mut self, value: &Written, visits: &mut C)
        ensures goes { FlowGoes (written_walk value.now) self.old self.new tt }
        ensures counts { visits.new ≡ all_counted C.counted (entries_of_written value.now) visits.old }
    {
        match value {
            Written::Ordinal { value, .. } => {
                self.expression(value, visits);
            }
            Written::String { value, indexes } => {
                self.whole_value(value, indexes, visits);
            }
        }
    }

    /// The width of a value that is written.
    fn width<C: Count>(&mut self, width: &Option<Width>, visits: &mut C)
        ensures goes { FlowGoes (width_walk width.now) self.old self.new tt }
        ensures counts { visits.new ≡ all_counted C.counted (entries_of_width width.now) visits.old }
    {
        if let Some(width) = width {
            let known = self.expression(&width.value, visits);
            self.width_test(width.site, known);
        }
    }
}

/// The bound form of an index expression behind which others are evaluated: none, where one of these holds a call.
fn form_before(version: Version, rows: &Rows, index: &Expr, later: &[Expr]) -> Option<Bound>
    ensures { said_form result
        ≡ form_before_by (is_ordinal_variable rows.now) version (piece_of index.now) (index_pieces later.now) }
{
    if hold_call(later) {
        None
    } else {
        bound_form(version, rows, index)
    }
}

/// What is reached of the rows where an access begins: at a variable, or at a record of a with statement (6.8.3.10), to
/// which the indexes aren't known.
fn begun(base: &Base) -> Reach
    ensures { (root : ℕ) → said_reach result ≡ reach_at (origin_by root base.now) }
{
    match base {
        Base::Variable => behind(&[]),
        Base::Record { path, .. } => behind(path),
    }
}

/// What is reached of the rows behind steps from a variable.
fn behind(steps: &[PathStep]) -> Reach
    ensures { said_reach result ≡ behind_steps steps.now entire }
{
    let mut reach = Reach {
        indexes: Indexes::Entire,
        is_all: true,
    };
    for step in steps {
        match step {
            PathStep::Element => reach = deeper(false, unknown_index(), reach),
            PathStep::Field(_) => {}
        }
    }
    reach
}

/// An index of which nothing is known.
fn unknown_index() -> Index
    ensures { said_index result ≡ unknown_index }
{
    Index {
        form: None,
        range: Interval::INTEGER,
    }
}

/// Whether an access keeps the next index that selectors take behind another: in a version with blocks the second one
/// of a matrix, in one with boxes any second one.
fn is_kept(version: Version, selectors: &[Selector]) -> bool
    ensures { result ≡ is_kept version selectors.now }
{
    version.has(Extension::Boxes) || (version.has(Extension::Blocks) && begin_at_element(selectors))
}

/// Whether that is the index of an array itself, and not of a part of it.
fn begin_at_element(selectors: &[Selector]) -> bool
    ensures { result ≡ begin_at_element selectors.now }
{
    match selectors.first() {
        Some(Selector::Element { .. }) => true,
        _ => false,
    }
}

/// What is reached with one index more: the first is kept, and one right behind it, if that is to be.
fn deeper(keeps: bool, index: Index, reach: Reach) -> Reach
    ensures { said_reach result ≡ deeper keeps (said_index index) (said_reach reach) }
{
    let Reach { indexes, is_all } = reach;
    match indexes {
        Indexes::Entire => Reach {
            indexes: Indexes::One(index),
            is_all,
        },
        Indexes::One(first) => {
            if keeps && is_all {
                Reach {
                    indexes: Indexes::Two(first, index),
                    is_all,
                }
            } else {
                Reach {
                    indexes: Indexes::One(first),
                    is_all: false,
                }
            }
        }
        Indexes::Two(first, second) => Reach {
            indexes: Indexes::Two(first, second),
            is_all: false,
        },
    }
}

/// The test of the next index that selectors take.
fn next_test(selectors: &[Selector]) -> Option<RangeTest>
    ensures { result ≡ next_test selectors.now }
{
    for i in 0..selectors.len() {
        match selectors[i] {
            Selector::Element { fits, .. } => return Some(fits),
            Selector::Field { .. } => {}
        }
    }
    None
}

/// The selectors behind the element of the next index.
fn behind_next(selectors: &[Selector]) -> &[Selector]
    ensures { result.now ≡ behind_next selectors.now }
{
    for i in 0..selectors.len() {
        match selectors[i] {
            Selector::Element { .. } => return &selectors[i + 1..],
            Selector::Field { .. } => {}
        }
    }
    &[]
}
