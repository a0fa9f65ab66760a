ghost use Rattle.std.specs.Prelude.{◌≡◌, if◌then◌else◌, map};
ghost use Rattle.std.specs.List.{list_all};
ghost use Rattle.domain.specs.Interval.{always_true, never_true};
ghost use Rattle.checker_rows.specs.Rows.{is_ordinal_variable};
ghost use Rattle.checker_state.specs.Conditions.{bound_at_least, bound_at_most, bound_isnt, branched, condition_of};
ghost use Rattle.checker_state.specs.Conditions.{conjunct_of, narrowed, operation_refined, opposite, related};
ghost use Rattle.checker_state.specs.Conditions.{related_forms, single_refined, takes_both, told};
ghost use Rattle.checker_state.specs.Conditions.{unlike, with_different, with_le, with_order, without_first};
ghost use Rattle.checker_state.specs.Conditions.{without_last};
ghost use Rattle.checker_state.specs.State.{Dead, bound_range};
ghost use Rattle.checker_state.specs.Terms.{IsFar, IsNear};
ghost use Rattle.checker_trail.specs.Trail.{Moves, seen};
ghost use Rattle.checker_state.specs.View.{AreEnds, said_bound, said_form};

use crate::State;
use checker_state::{Bound, Ends, Order, bound_form, difference, sum};
use domain::Interval;
use typed_tree::{Calculation, Dyadic, Expr, Link, Monadic, Relation, holds_call};

impl<'a> State<'a> {
    /// What is known where a condition, whose value lies in a range, had a truth value.
    pub fn branch(&mut self, condition: &Expr, range: Interval, truth: bool)
        ensures { Moves (branched (is_ordinal_variable self.old.table.now) truth condition.now range)
            self.old self.new }
    {
        self.die_if(excludes(range, truth));
        if holds_call(condition) {
            return;
        }
        self.refine(condition, truth);
    }

    /// What a condition tells that had a truth value, if no call in it changes that.
    fn refine(&mut self, condition: &Expr, truth: bool)
        ensures { Moves ((condition_of (is_ordinal_variable self.old.table.now) condition.now).refined truth)
            self.old self.new }
    {
        match condition {
            Expr::Constant { .. } | Expr::Variable { .. } | Expr::Set { .. } => {}
            Expr::Compare { .. } | Expr::Call { .. } | Expr::Input { .. } => {}
            Expr::Monadic {
                operation: Monadic::Plain(Calculation::Complement),
                operand,
                ..
            } => self.refine(operand, !truth),
            Expr::Monadic { .. } => {}
            Expr::Chain { first, rest } => {
                if !all_take_both(rest, truth) {
                    return self.refine_single(first, rest, truth);
                }
                self.refine(first, truth);
                for link in rest {
                    self.refine(&link.operand, truth);
                }
            }
        }
    }

    /// The same of a single operator.
    fn refine_single(&mut self, first: &Expr, rest: &[Link], truth: bool)
        ensures { Moves (single_refined truth (condition_of (is_ordinal_variable self.old.table.now) first.now).form
            (map (conjunct_of (is_ordinal_variable self.old.table.now)) rest.now)) self.old self.new }
    {
        if rest.len() != 1 {
            return;
        }
        if self.known.is_dead {
            return;
        }
        let link = &rest[0];
        self.refine_operation(
            link.operation,
            bound_form(self.known.rules, self.table, first),
            bound_form(self.known.rules, self.table, &link.operand),
            truth,
        )
    }

    /// The same of an operation on operands that may have bound forms.
    fn refine_operation(
        &mut self,
        operation: Dyadic,
        left: Option<Bound>,
        right: Option<Bound>,
        truth: bool,
    )
        ensures { Moves (operation_refined operation truth (said_form left) (said_form right)) self.old self.new }
    {
        match operation {
            Dyadic::Relation(relation) => self.refine_relation(told(relation, truth), left, right),
            Dyadic::Plus { .. }
            | Dyadic::Minus { .. }
            | Dyadic::Times { .. }
            | Dyadic::Div { .. }
            | Dyadic::Mod { .. }
            | Dyadic::And
            | Dyadic::Or
            | Dyadic::Union
            | Dyadic::Difference
            | Dyadic::Intersection
            | Dyadic::SetRelation(_)
            | Dyadic::In => {}
        }
    }

    /// A relation of operands holds: something is known where both have bound forms.
    fn refine_relation(&mut self, relation: Relation, left: Option<Bound>, right: Option<Bound>)
        ensures { Moves (related_forms relation (said_form left) (said_form right)) self.old self.new }
    {
        let Some(left) = left else {
            return;
        };
        let Some(right) = right else {
            return;
        };
        self.relate(relation, left, right)
    }

    /// A relation of two bounds holds from here on.
    pub fn relate(&mut self, relation: Relation, left: Bound, right: Bound)
        ensures { Moves (related relation (said_bound left) (said_bound right)) self.old self.new }
    {
        match relation {
            Relation::Equal => {
                self.put_order(left, 0, right);
                self.put_order(right, 0, left);
            }
            Relation::NotEqual => self.part(left, right),
            Relation::Less => self.put_order(left, 1, right),
            Relation::Greater => self.put_order(right, 1, left),
            Relation::LessOrEqual => self.put_order(left, 0, right),
            Relation::GreaterOrEqual => self.put_order(right, 0, left),
        }
    }

    /// A bound plus a number is at most another.
    pub fn put_order(&mut self, left: Bound, gap: i32, right: Bound)
        ensures { Moves (with_le (said_bound left) gap (said_bound right)) self.old self.new }
    {
        let first = self.ends(left).first;
        let last = self.ends(right).last;
        self.put_variables(left, gap, right);
        self.at_most(left, difference(last, gap));
        self.at_least(right, sum(first, gap));
    }

    /// The order of two variables, where both bounds have one.
    pub fn put_variables(&mut self, left: Bound, gap: i32, right: Bound)
        ensures { Moves (with_order (said_bound left) gap (said_bound right)) self.old self.new }
    {
        let Some(root) = left.root else {
            return;
        };
        let Some(other) = right.root else {
            return;
        };
        let number = difference(difference(i64::from(right.number), left.number), gap);
        self.order(Order::new(root, other, number));
    }

    /// Two bounds are different.
    fn part(&mut self, left: Bound, right: Bound)
        ensures { Moves (with_different (said_bound left) (said_bound right)) self.old self.new }
    {
        let ends = self.ends(right);
        self.unlike(left, ends);
        let ends = self.ends(left);
        self.unlike(right, ends);
    }

    /// A bound isn't the one number of a range.
    fn unlike(&mut self, bound: Bound, ends: Ends)
        requires { AreEnds ends (record { first = ends.first; last = ends.last }) }
        ensures { Moves (unlike (said_bound bound) (record { first = ends.first; last = ends.last }))
            self.old self.new }
    {
        if ends.first == ends.last {
            self.isnt(bound, ends.first);
        }
    }

    /// A bound is at most a number.
    fn at_most(&mut self, bound: Bound, number: i64)
        requires { IsNear number }
        ensures { Moves (bound_at_most (said_bound bound) number) self.old self.new }
    {
        match bound.root {
            None => self.die_if(number < i64::from(bound.number)),
            Some(root) => {
                let range = self.range(root).at_most(difference(number, bound.number));
                self.narrow(root, range);
            }
        }
    }

    /// A bound is at least a number.
    fn at_least(&mut self, bound: Bound, number: i64)
        requires { IsNear number }
        ensures { Moves (bound_at_least (said_bound bound) number) self.old self.new }
    {
        match bound.root {
            None => self.die_if(i64::from(bound.number) < number),
            Some(root) => {
                let range = self.range(root).at_least(difference(number, bound.number));
                self.narrow(root, range);
            }
        }
    }

    /// A bound isn't a number.
    fn isnt(&mut self, bound: Bound, number: i64)
        requires { IsNear number }
        ensures { Moves (bound_isnt (said_bound bound) number) self.old self.new }
    {
        match bound.root {
            None => self.die_if(i64::from(bound.number) == number),
            Some(root) => {
                let number = difference(number, bound.number);
                let range = without_last(number, without_first(number, self.range(root)));
                self.narrow(root, range);
            }
        }
    }

    /// No run comes here, if so.
    fn die_if(&mut self, excluded: bool)
        ensures { Moves (λ state. if excluded then Dead else state) self.old self.new }
    {
        if excluded {
            self.die();
        }
    }

    /// The values of a variable lie in a range; no run goes on from an empty one.
    pub fn narrow(&mut self, root: u32, range: Interval)
        ensures { Moves (narrowed root range) self.old self.new }
    {
        self.set_range(root as usize, range);
        self.unless_empty(range);
    }

    /// The ends of the range in which a bound lies.
    pub fn ends(&self, bound: Bound) -> Ends
        ensures { AreEnds result (bound_range (seen self.now) (said_bound bound)) }
    {
        match bound.root {
            None => Ends::of(i64::from(bound.number)),
            Some(root) => Ends::moved(self.range(root), i64::from(bound.number)),
        }
    }
}

/// Whether a condition whose value lies in the range has never the truth value.
fn excludes(range: Interval, truth: bool) -> bool
    ensures { result ≡ (if truth then never_true range else always_true range) }
{
    if truth {
        range.first() == 0 && range.last() == 0
    } else {
        !range.has(0)
    }
}

/// Whether each operand of a chain has the truth value, if the whole has it.
pub fn all_take_both(rest: &[Link], truth: bool) -> bool
    ensures { result ≡ list_all (λ link. takes_both truth link.operation) rest.now }
{
    rest.iter().all(|link| takes_both(link.operation, truth))
}

/// Both operands of an `and` that is true are true, and those of an `or` that is false are false.
fn takes_both(operation: Dyadic, truth: bool) -> bool
    ensures { result ≡ takes_both truth operation }
{
    match operation {
        Dyadic::And => truth,
        Dyadic::Or => !truth,
        _ => false,
    }
}

/// The relation that holds where one had a truth value.
pub fn told(relation: Relation, truth: bool) -> Relation
    ensures { result ≡ told relation truth }
{
    if truth { relation } else { opposite(relation) }
}

/// The relation that holds where another doesn't.
fn opposite(relation: Relation) -> Relation
    ensures { result ≡ opposite relation }
{
    match relation {
        Relation::Equal => Relation::NotEqual,
        Relation::NotEqual => Relation::Equal,
        Relation::Less => Relation::GreaterOrEqual,
        Relation::Greater => Relation::LessOrEqual,
        Relation::LessOrEqual => Relation::Greater,
        Relation::GreaterOrEqual => Relation::Less,
    }
}

/// A range without a number, where it is the last.
pub fn without_last(number: i64, range: Interval) -> Interval
    requires { IsFar number }
    ensures { result ≡ without_last number range }
{
    if range.last() == number {
        range.at_most(difference(number, 1))
    } else {
        range
    }
}

/// A range without a number, where it is the first.
pub fn without_first(number: i64, range: Interval) -> Interval
    requires { IsFar number }
    ensures { result ≡ without_first number range }
{
    if range.first() == number {
        range.at_least(sum(number, 1))
    } else {
        range
    }
}
