//! What a condition tells of the two sides of its operators, by what was noted of them: a side is met with what the
//! other one lets through.
ghost use Rattle.std.specs.Prelude.{◌≡◌, ℕ, Bool, Option, drop, length, map};
ghost use Rattle.std.specs.List.{list_all};
ghost use Rattle.std.specs.Option.{option_map};
ghost use Rattle.typed_tree.specs.Accesses.{origin_of};
ghost use Rattle.checker_rows.specs.View.{numbers};
ghost use Rattle.checker_rows.specs.Rows.{is_ordinal_variable};
ghost use Rattle.checker_state.specs.Conditions.{condition_of, conjunct_of, subject_of, taken, turn_tellings, under};
ghost use Rattle.checker_state.specs.View.{said_form};
ghost use Rattle.checker_trail.specs.Trail.{Moves};
ghost use Rattle.checker_sides.specs.Sides.{access_side, all_met, bound_side, expression_side, is_field};
ghost use Rattle.checker_sides.specs.Sides.{is_straight, let_through, member_met, met, mirrored, operation_met};
ghost use Rattle.checker_sides.specs.Sides.{only_row, relation_met, row_side, selects_field, sided};

use checker_expressions::noting::{Noted, join};
use checker_rows::{Rows, Span};
use checker_state::{Bound, Known, bound_form, difference, sum};
use checker_trail::{State, all_take_both, told, without_first, without_last};
use domain::{Domain, Interval, Version};
use typed_tree::{
    Access, Base, Calculation, Dyadic, Expr, Link, Monadic, PathStep, Relation, Selector,
    holds_call,
};

/// An operand that a range can be met with: the values of a row that has one component, plus a number.
#[derive(Clone, Copy)]
pub struct Side {
    pub row: usize,
    pub number: i32,
}

/// What a condition tells that had a truth value, by what was noted of its operators, if no call in it changes that.
pub fn meet_sides(state: &mut State, condition: &Expr, truth: bool, notes: &[Noted])
    ensures { Moves (sided state.old.table.now truth condition.now notes.now) state.old state.new }
{
    if !holds_call(condition) {
        let _rest = meet_told(state, condition, Some(truth), notes);
    }
}

/// The same, where the truth value may be unknown; the notes behind those of the condition.
fn meet_told<'n>(
    state: &mut State,
    condition: &Expr,
    truth: Option<bool>,
    notes: &'n [Noted],
) -> &'n [Noted]
    ensures goes { Moves (all_met state.old.table.now
        ((condition_of (is_ordinal_variable state.old.table.now) condition.now).tellings truth) notes.now)
        state.old state.new }
    ensures rest { (ordinal : ℕ → Bool)
        → result.now ≡ drop (length ((condition_of ordinal condition.now).tellings truth)) notes.now }
{
    match condition {
        Expr::Constant { .. } | Expr::Variable { .. } | Expr::Set { .. } => notes,
        Expr::Compare { .. } | Expr::Call { .. } | Expr::Input { .. } => notes,
        Expr::Monadic {
            operation,
            operand,
            ..
        } => meet_told(state, operand, under(*operation, truth), notes),
        Expr::Chain { first, rest } => {
            if !join(rest) {
                return meet_operands(state, first, rest, truth, notes);
            }
            let own = taken(rest, truth);
            let mut left = meet_told(state, first, own, notes);
            for link in rest {
                left = meet_told(state, &link.operand, own, left);
            }
            left
        }
    }
}

/// The same of operators between operands: only a single one has the truth value of the whole.
fn meet_operands<'n>(
    state: &mut State,
    first: &Expr,
    rest: &[Link],
    truth: Option<bool>,
    notes: &'n [Noted],
) -> &'n [Noted]
    ensures goes { Moves (all_met state.old.table.now (turn_tellings
        (subject_of (condition_of (is_ordinal_variable state.old.table.now) first.now))
        (map (conjunct_of (is_ordinal_variable state.old.table.now)) rest.now) truth) notes.now) state.old state.new }
    ensures rest { result.now ≡ drop (length rest.now) notes.now }
{
    meet_single(state, first, rest, truth, notes);
    &notes[rest.len().min(notes.len())..]
}

/// The same of a single operator, if it is one and had a truth value.
fn meet_single(state: &mut State, first: &Expr, rest: &[Link], truth: Option<bool>, notes: &[Noted])
    ensures { Moves (all_met state.old.table.now (turn_tellings
        (subject_of (condition_of (is_ordinal_variable state.old.table.now) first.now))
        (map (conjunct_of (is_ordinal_variable state.old.table.now)) rest.now) truth) notes.now) state.old state.new }
{
    let Some(truth) = truth else {
        return;
    };
    if rest.len() != 1 {
        return;
    }
    if notes.is_empty() {
        return;
    }
    let link = &rest[0];
    let left = Side::of(state.table(), first);
    let right = Side::of(state.table(), &link.operand);
    meet_both(state, link.operation, truth, left, right, &notes[0]);
}

/// An operation had a truth value.
fn meet_both(
    state: &mut State,
    operation: Dyadic,
    truth: bool,
    left: Option<Side>,
    right: Option<Side>,
    noted: &Noted,
)
    ensures { Moves (operation_met (Option.Some truth) operation left right (noted.now.left, noted.now.right))
        state.old state.new }
{
    match operation {
        Dyadic::Relation(relation) => {
            meet_related(state, told(relation, truth), left, right, noted);
        }
        Dyadic::In => {
            if truth {
                meet_member(state, left, noted);
            }
        }
        _ => {}
    }
}

/// A relation of two numbers holds.
fn meet_related(
    state: &mut State,
    relation: Relation,
    left: Option<Side>,
    right: Option<Side>,
    noted: &Noted,
)
    ensures { Moves (relation_met relation left right (noted.now.left, noted.now.right)) state.old state.new }
{
    let Known::Ordinal(one) = noted.left else {
        return;
    };
    let Known::Ordinal(other) = noted.right else {
        return;
    };
    meet(state, left, let_through(relation, other, one));
    meet(state, right, let_through(mirrored(relation), one, other));
}

/// A number is a member of a set.
fn meet_member(state: &mut State, left: Option<Side>, noted: &Noted)
    ensures { Moves (member_met left (noted.now.left, noted.now.right)) state.old state.new }
{
    let Known::Ordinal(one) = noted.left else {
        return;
    };
    let Known::Set(hull) = noted.right else {
        return;
    };
    meet(state, left, let_through(Relation::Equal, hull.range(), one));
}

/// A side, if it is one, lies in a range from here on; no run goes on where it can't.
pub fn meet(state: &mut State, side: Option<Side>, range: Interval)
    ensures { Moves (met side range) state.old state.new }
{
    if let Some(side) = side {
        let last = difference(range.last(), side.number);
        let first = difference(range.first(), side.number);
        let range = state.row_range(side.row).at_most(last).at_least(first);
        state.set_range(side.row, range);
        state.unless_empty(range);
    }
}

impl Side {
    /// The side that an expression is, if it is one.
    pub fn of(rows: &Rows, expression: &Expr) -> Option<Side>
        ensures { result ≡ expression_side rows.now expression.now }
    {
        match expression {
            Expr::Variable { access, .. } => Side::of_access(rows, access),
            Expr::Monadic { .. } | Expr::Chain { .. } => {
                Side::of_bound(bound_form(Version::Three, rows, expression))
            }
            Expr::Constant { .. } | Expr::Set { .. } | Expr::Compare { .. } => None,
            Expr::Call { .. } | Expr::Input { .. } => None,
        }
    }

    /// What is accessed without an index is one component.
    fn of_access(rows: &Rows, access: &Access) -> Option<Side>
        ensures { result ≡ access_side rows.now
            (record { origin = origin_of access.now; selectors = access.now.selectors.items }) }
    {
        if is_straight(access) {
            Side::of_rows(rows.accessed(access))
        } else {
            None
        }
    }

    /// A row as such, if there is one alone.
    fn of_rows(rows: Span) -> Option<Side>
        ensures { result ≡ option_map row_side (only_row (numbers rows)) }
    {
        if rows.count == 1 {
            Some(Side {
                row: rows.first,
                number: 0,
            })
        } else {
            None
        }
    }

    /// A variable, perhaps plus a number.
    fn of_bound(bound: Option<Bound>) -> Option<Side>
        ensures { result ≡ bound_side (said_form bound) }
    {
        let bound = bound?;
        let root = bound.root?;
        Some(Side {
            row: root as usize,
            number: bound.number,
        })
    }
}

/// Whether no index leads to what is accessed.
fn is_straight(access: &Access) -> bool
    ensures { result ≡ is_straight (origin_of access.now) access.now.selectors.items }
{
    match &access.base {
        Base::Variable => select_fields(&access.selectors),
        Base::Record { path, .. } => are_fields(path) && select_fields(&access.selectors),
    }
}

/// Whether all steps lead to fields.
fn are_fields(steps: &[PathStep]) -> bool
    ensures { result ≡ list_all is_field steps.now }
{
    steps.iter().all(|step| matches!(step, PathStep::Field(_)))
}

/// Whether all selectors do.
fn select_fields(selectors: &[Selector]) -> bool
    ensures { result ≡ list_all selects_field selectors.now }
{
    selectors
        .iter()
        .all(|selector| matches!(selector, Selector::Field { .. }))
}

/// The truth value of an operand, by that of an operation on it.
fn under(operation: Monadic, truth: Option<bool>) -> Option<bool>
    ensures { result ≡ under operation truth }
{
    match operation {
        Monadic::Plain(Calculation::Complement) => truth.map(|truth| !truth),
        _ => None,
    }
}

/// The truth value that each operand of a chain takes from the whole, if it takes one.
fn taken(rest: &[Link], truth: Option<bool>) -> Option<bool>
    ensures { (ordinal : ℕ → Bool) → result ≡ taken (map (conjunct_of ordinal) rest.now) truth }
{
    let truth = truth?;
    if all_take_both(rest, truth) {
        Some(truth)
    } else {
        None
    }
}

/// The numbers of a range that stand in a relation to one of another.
fn let_through(relation: Relation, other: Interval, own: Interval) -> Interval
    ensures { result ≡ let_through relation other own }
{
    match relation {
        Relation::Equal => own.meet(&other),
        Relation::NotEqual => unlike(other, own),
        Relation::Less => own.at_most(difference(other.last(), 1)),
        Relation::Greater => own.at_least(sum(other.first(), 1)),
        Relation::LessOrEqual => own.at_most(other.last()),
        Relation::GreaterOrEqual => own.at_least(other.first()),
    }
}

/// A range without the one number of another.
fn unlike(other: Interval, own: Interval) -> Interval
    ensures { result ≡ let_through Relation.NotEqual other own }
{
    let number = other.first();
    if number == other.last() {
        without_last(number, without_first(number, own))
    } else {
        own
    }
}

/// The relation in which the right operand stands to the left one.
fn mirrored(relation: Relation) -> Relation
    ensures { result ≡ mirrored relation }
{
    match relation {
        Relation::Less => Relation::Greater,
        Relation::Greater => Relation::Less,
        Relation::LessOrEqual => Relation::GreaterOrEqual,
        Relation::GreaterOrEqual => Relation::LessOrEqual,
        Relation::Equal | Relation::NotEqual => relation,
    }
}
