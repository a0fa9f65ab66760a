ghost use Rattle.std.specs.Prelude.{◌≡◌};
ghost use Rattle.std.specs.List.{list_any};
ghost use Rattle.domain.specs.Interval.{at_least, at_most};
ghost use Rattle.checker_rows.specs.Rows.{is_ordinal_variable};
ghost use Rattle.checker_state.specs.Changes.{bound_rests_on};
ghost use Rattle.checker_state.specs.State.{bound_range};
ghost use Rattle.checker_state.specs.View.{said_bound, said_form};
ghost use Rattle.checker_trail.specs.Trail.{Moves, seen};
ghost use Rattle.checker_loops.specs.Growths.{most_between};
ghost use Rattle.checker_loops.specs.Loops.{touched};
ghost use Rattle.checker_loops.specs.View.{head_round};
ghost use Rattle.checker_loops.specs.Ways.{end_of, entered, form_before, in_order, met, next, on_way, own};
ghost use Rattle.checker_loops.specs.Ways.{relation_of, steady, turn_begun, turn_ended, unless_touched};
ghost use Rattle.checker_loops.specs.Ways.{values_behind, way_of, way_out, where_counts, with_values};
ghost use Rattle.checker_ways.specs.View.{said_end, said_way};

use checker_loops::Round;
use checker_rows::Rows;
use checker_state::{Bound, Known, bound_form};
use checker_trail::State;
use domain::{Interval, Version};
use typed_tree::{Direction, Expr, Fitted, ForHead, RangeTest, Relation, holds_call};

/// A bound of a for statement.
#[derive(Clone, Copy)]
pub struct End {
    pub form: Option<Bound>,
    pub fits: RangeTest,
    /// Where its value lies.
    pub values: Interval,
}

impl End {
    /// A bound with what is known of its value.
    fn new(version: Version, rows: &Rows, bound: &Fitted, known: Known) -> End
        ensures { said_end result ≡ end_of (is_ordinal_variable rows.now) version bound.now known }
    {
        End {
            form: bound_form(version, rows, &bound.value),
            fits: bound.fits,
            values: known.range(),
        }
    }

    /// A bound behind which another was evaluated.
    fn before(version: Version, rows: &Rows, bound: &Fitted, later: &Expr, known: Known) -> End
        ensures { said_end result ≡ record (end_of (is_ordinal_variable rows.now) version bound.now known) {
          form = form_before (is_ordinal_variable rows.now) version bound.now.value later.now;
        } }
    {
        End {
            form: form_before(version, rows, &bound.value, later),
            ..End::new(version, rows, bound, known)
        }
    }

    /// Where its value lies, met with what a state knows of its form.
    pub fn met(&self, state: &State) -> Interval
        ensures { result ≡ met (said_form self.now.form) (seen state.now) self.now.values }
    {
        match self.form {
            None => self.values,
            Some(bound) => near(self.values, state, bound),
        }
    }
}

/// The form of an expression behind which another was evaluated: one that holds a call may have changed what it says.
fn form_before(version: Version, rows: &Rows, expression: &Expr, later: &Expr) -> Option<Bound>
    ensures { said_form result ≡ form_before (is_ordinal_variable rows.now) version expression.now later.now }
{
    if holds_call(later) {
        return None;
    }
    bound_form(version, rows, expression)
}

/// The numbers of a range that a bound may be.
fn near(range: Interval, state: &State, bound: Bound) -> Interval
    ensures { result ≡ at_least (bound_range (seen state.now) (said_bound bound)).first
        (at_most (bound_range (seen state.now) (said_bound bound)).last range) }
{
    let ends = state.ends(bound);
    range.at_most(ends.last).at_least(ends.first)
}

/// A control variable on its way from a first bound to a last one.
#[derive(Clone, Copy)]
pub struct Way {
    pub control: u32,
    pub direction: Direction,
    pub first: End,
    pub last: End,
}

impl Way {
    /// The way of a for statement, from what is known of the values of its bounds.
    pub fn of(version: Version, rows: &Rows, head: &ForHead, from: Known, to: Known) -> Way
        ensures { said_way result ≡ way_of (is_ordinal_variable rows.now) version head.now from to }
    {
        Way {
            control: head.control,
            direction: head.direction,
            first: End::before(version, rows, &head.first, &head.last.value, from),
            last: End::new(version, rows, &head.last, to),
        }
    }

    /// The way of bounds with values of these ranges.
    pub fn with_values(self, first: Interval, last: Interval) -> Way
        ensures { said_way result ≡ with_values first last (said_way self) }
    {
        Way {
            first: End {
                values: first,
                ..self.first
            },
            last: End {
                values: last,
                ..self.last
            },
            ..self
        }
    }

    /// The way with the forms of its bounds that the turns of its loop leave as they are.
    pub fn steady(self, round: &Round) -> Way
        ensures { said_way result ≡ steady (touched (head_round round.now)) (said_way self) }
    {
        Way {
            first: End {
                form: unless_touched(round, self.first.form),
                ..self.first
            },
            last: End {
                form: unless_touched(round, self.last.form),
                ..self.last
            },
            ..self
        }
    }

    /// How many turns behind the first there are at most.
    pub fn most(&self) -> i64
        ensures { result ≡ most_between self.now.direction self.now.first.values self.now.last.values }
    {
        let (first, last) = (self.first.values, self.last.values);
        match self.direction {
            Direction::To => last.last() - first.first(),
            Direction::DownTo => first.last() - last.first(),
        }
    }

    /// It has values from here on, or it has none.
    pub fn relate(&self, state: &mut State, counts: bool)
        ensures { Moves (where_counts counts (said_way self.now)) state.old state.new }
    {
        if let (Some(first), Some(last)) = (self.first.form, self.last.form) {
            state.relate(relation_of(self.direction, counts), first, last);
        }
    }

    /// Goes on where the first turn begins.
    pub fn enter(&self, state: &mut State)
        ensures { Moves (entered (said_way self.now)) state.old state.new }
    {
        state.unless_empty(self.values(self.first.values));
    }

    /// Goes on where a turn begins.
    pub fn begin_turn(&self, state: &mut State)
        ensures { Moves (turn_begun (said_way self.now)) state.old state.new }
    {
        let own = self.own();
        let range = self.values(state.range(self.control));
        state.narrow(self.control, range);
        state.define(self.control as usize);
        in_order(state, self.direction, self.first.form, own);
        in_order(state, self.direction, own, self.last.form);
    }

    /// Goes on where a turn ends and another follows.
    pub fn end_turn(&self, state: &mut State)
        ensures { Moves (turn_ended (said_way self.now)) state.old state.new }
    {
        let range = self.values_behind(state.range(self.control));
        state.assign(self.control, range, self.next(), None);
        state.unless_empty(range);
        in_order(state, self.direction, self.own(), self.last.form);
    }

    /// Goes on where the last turn ends.
    pub fn leave(&self, state: &mut State)
        ensures { Moves (way_out (said_way self.now)) state.old state.new }
    {
        state.replace_root(self.control, self.last.form);
    }

    /// The control variable as a bound.
    fn own(&self) -> Option<Bound>
        ensures { said_form result ≡ own (said_way self.now) }
    {
        Some(Bound::plus(self.control, 0))
    }

    /// The control variable's next value as a bound.
    pub fn next(&self) -> Option<Bound>
        ensures { said_form result ≡ next (said_way self.now) }
    {
        let number = match self.direction {
            Direction::To => 1,
            Direction::DownTo => -1,
        };
        Some(Bound::plus(self.control, number))
    }

    /// The numbers of a range that lie on the way.
    fn values(&self, range: Interval) -> Interval
        ensures { result ≡ on_way self.now.direction self.now.first.values self.now.last.values range }
    {
        let first = self.first.values;
        let last = self.last.values;
        match self.direction {
            Direction::To => range.at_most(last.last()).at_least(first.first()),
            Direction::DownTo => range.at_most(first.last()).at_least(last.first()),
        }
    }

    /// The numbers behind those of a range that aren't the last.
    fn values_behind(&self, range: Interval) -> Interval
        ensures { result ≡ values_behind self.now.direction self.now.last.values range }
    {
        let one = Interval::between(1, 1);
        let last = self.last.values;
        match self.direction {
            Direction::To => {
                let end = last.last() - 1;
                range.at_most(end).add(&one)
            }
            Direction::DownTo => {
                let end = last.first() + 1;
                range.at_least(end).subtract(&one)
            }
        }
    }
}

/// Whether a turn gives the variable of a bound another value.
fn rests_on_touched(round: &Round, bound: Bound) -> bool
    ensures { result ≡ list_any (λ root. bound_rests_on root (said_bound bound)) (touched (head_round round.now)) }
{
    match bound.root {
        None => false,
        Some(root) => round.touches(root),
    }
}

/// A form, unless its variable is touched.
fn unless_touched(round: &Round, form: Option<Bound>) -> Option<Bound>
    ensures { said_form result ≡ unless_touched (touched (head_round round.now)) (said_form form) }
{
    match form {
        Some(bound) if rests_on_touched(round, bound) => None,
        _ => form,
    }
}

/// The relation of the first bound to the last where there are values, and where there are none.
fn relation_of(direction: Direction, counts: bool) -> Relation
    ensures { result ≡ relation_of direction counts }
{
    match (direction, counts) {
        (Direction::To, true) => Relation::LessOrEqual,
        (Direction::To, false) => Relation::Greater,
        (Direction::DownTo, true) => Relation::GreaterOrEqual,
        (Direction::DownTo, false) => Relation::Less,
    }
}

/// One bound comes before another on a way.
fn in_order(state: &mut State, direction: Direction, before: Option<Bound>, after: Option<Bound>)
    ensures { Moves (in_order direction (said_form before) (said_form after)) state.old state.new }
{
    if let (Some(before), Some(after)) = (before, after) {
        match direction {
            Direction::To => state.put_variables(before, 0, after),
            Direction::DownTo => state.put_variables(after, 0, before),
        }
    }
}
