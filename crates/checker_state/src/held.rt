ghost use Rattle.std.specs.Prelude.{◌≡◌, ◌∷◌, ◌+ℤ◌, neg_ℤ, pos, Some};
ghost use Rattle.std.specs.Bool.{OnTrue};
ghost use Rattle.std.specs.Cmp.Lexicographic.{slice_cmp};
ghost use Rattle.checker_state.specs.Changes.{all_with_bounds, changed_order, in_place, ordered, raised, raised_number};
ghost use Rattle.checker_state.specs.Changes.{span_between, stretch_of, unless_resting, with_bounds};
ghost use Rattle.checker_state.specs.State.{Ordered, Stretched, all_indexes, all_of, at_most_by, ends_of, group_of};
ghost use Rattle.checker_state.specs.State.{group_order};
ghost use Rattle.checker_state.specs.State.{held_order, in_spans, order_span, says_at_most, span_order, stretch_in};
ghost use Rattle.checker_state.specs.State.{stretched};
ghost use Rattle.checker_state.specs.Stores.{point, points};
ghost use Rattle.checker_state.specs.Terms.{IsWithin};
ghost use Rattle.checker_state.specs.View.{IsSettled, bound_by, held_by, inner_spans, said_bound, said_claim};
ghost use Rattle.checker_state.specs.View.{said_form};
ghost use Rattle.checker_state.specs.View.{said_held, said_more, said_order, said_ordered, said_point, said_span};
ghost use Rattle.checker_state.specs.View.{said_span_form, said_spans, said_stretch, said_stretch_form, said_stretched};
ghost use Rattle.checker_state.specs.View.{said_term};

use crate::{Bound, Rebinding, Term};
use domain::Interval;
use std::cmp::Ordering;
use types::OrdinalRange;

/// The indexes between two bounds.
#[derive(Clone, Copy)]
pub struct Span {
    pub first: Bound,
    pub last: Bound,
}

/// An index, and perhaps the one behind it.
#[derive(Clone, Copy)]
pub struct Point {
    pub index: Bound,
    pub inner: Option<Bound>,
}

/// Components of a row: those whose first index lies in a span, and whose second lies in the inner one, if there is
/// one.
#[derive(Clone, Copy)]
pub struct Stretch {
    pub row: usize,
    pub span: Span,
    pub inner: Option<Span>,
}

/// The value of a variable is at most that of another plus a number.
#[derive(Clone, Copy)]
pub struct Order {
    pub root: u32,
    pub other: u32,
    pub number: i32,
}

/// What is held beside rows.
#[derive(Clone, Copy)]
pub enum Held {
    /// The components of a stretch are defined.
    Stretched(Stretch),
    /// Two variables are, and they are in an order.
    Ordered(Order),
}

/// What stands together in the order of what is held.
#[derive(Clone, Copy)]
pub enum Group {
    /// The stretches of a row.
    Row(usize),
    /// The orders of two variables.
    Pair(u32, u32),
}

/// What may be said of rows at a point of a program.
#[derive(Clone, Copy)]
pub enum Claim {
    /// The values of a row lie in a range.
    Range { row: usize, range: Interval },
    /// Each component of a row is defined.
    Defined { row: usize },
    /// What may be held.
    Holds(Held),
}

impl Span {
    /// That of all values of an index.
    pub fn all(range: OrdinalRange) -> Span
        ensures { said_span result ≡ all_indexes range }
    {
        Span {
            first: Bound::constant(range.first),
            last: Bound::constant(range.last),
        }
    }

    /// That of a single index.
    pub fn at(index: Bound) -> Span
        ensures { said_span result ≡ point (said_bound index) }
    {
        Span {
            first: index,
            last: index,
        }
    }

    /// That between two bounds, if both are there.
    pub fn between(first: Option<Bound>, last: Option<Bound>) -> Option<Span>
        ensures { said_span_form result ≡ span_between (said_form first) (said_form last) }
    {
        let first = first?;
        let last = last?;
        Some(Span { first, last })
    }

    // What becomes of it.
    fn by(self, how: Rebinding) -> Option<Span>
        ensures { said_span_form result ≡ with_bounds (bound_by how) (said_span self) }
    {
        let first = self.first.by(how)?;
        let last = self.last.by(how)?;
        Some(Span { first, last })
    }

    fn compare(self, other: Span) -> Ordering
        ensures { result ≡ span_order (said_span self) (said_span other) }
    {
        self.first
            .compare(other.first)
            .then(self.last.compare(other.last))
    }
}

impl Stretch {
    /// That of all first indexes of a row, which are of these values.
    pub fn all(row: usize, range: OrdinalRange) -> Stretch
        ensures { said_stretch result ≡ all_of row range }
    {
        Stretch {
            row,
            span: Span::all(range),
            inner: None,
        }
    }

    // What becomes of it.
    fn by(self, how: Rebinding) -> Option<Stretch>
        ensures { said_stretched result ≡ stretch_of self.row (all_with_bounds (bound_by how) (said_spans self)) }
    {
        let span = self.span.by(how)?;
        let inner = match self.inner {
            None => None,
            Some(inner) => Some(inner.by(how)?),
        };
        let row = self.row;
        Some(Stretch { row, span, inner })
    }

    fn compare(&self, other: &Stretch) -> Ordering
        ensures { result ≡ held_order (Stretched (said_stretch self.now)) (Stretched (said_stretch other.now)) }
    {
        self.row
            .cmp(&other.row)
            .then(self.span.compare(other.span))
            .then(compare_inner(self.inner, other.inner))
    }
}

impl Order {
    /// An order, if its number is one that facts have.
    pub fn new(root: u32, other: u32, number: i64) -> Option<Order>
        ensures { said_ordered result ≡ ordered root other number }
    {
        if number < -2147483647 || 2147483647 < number {
            return None;
        }
        Some(Order {
            root,
            other,
            number: number as i32,
        })
    }

    // What becomes of it.
    fn by(self, how: Rebinding) -> Option<Order>
        ensures { said_ordered result ≡ held_by how (Ordered self.root self.other self.number) }
    {
        match how {
            Rebinding::Changed { root, form } => self.changed(root, form),
            Rebinding::InPlace { root, own } => self.in_place(root, own),
        }
    }

    // What is left of it after a variable got a value, perhaps of a bound form.
    fn changed(self, root: u32, form: Option<Bound>) -> Option<Order>
        ensures { said_ordered result ≡ changed_order root (said_form form) self.root self.other self.number }
    {
        match form {
            Some(form) if form.rests_on(root) => self.raised(root, form.number),
            _ => self.unless_resting(root),
        }
    }

    // What is left of it after a variable rose by a number.
    fn raised(self, root: u32, by: i32) -> Option<Order>
        ensures { said_ordered result ≡ raised root by self.root self.other self.number }
    {
        let number = raised_number(
            root == self.root,
            root == self.other,
            i64::from(by),
            self.number,
        );
        Order::new(self.root, self.other, number)
    }

    // The order, if it doesn't rest on a variable.
    fn unless_resting(self, root: u32) -> Option<Order>
        ensures { said_ordered result ≡ unless_resting root self.root self.other self.number }
    {
        if root == self.root || root == self.other {
            return None;
        }
        Some(self)
    }

    // The order with a bound in the place of a variable; it goes, if it rests on the variable and the bound is a
    // number.
    fn in_place(self, root: u32, own: Bound) -> Option<Order>
        ensures { said_ordered result ≡ in_place root (said_bound own) (Ordered self.root self.other self.number) }
    {
        let left = root == self.root;
        let right = root == self.other;
        if !(left || right) {
            return Some(self);
        }
        let by = own.root?;
        let number = lowered_number(left, right, own.number, self.number);
        Order::new(
            if left { by } else { self.root },
            if right { by } else { self.other },
            number,
        )
    }

    /// What is held, if it is.
    pub fn held(self) -> Held
        ensures { said_held result ≡ said_order self }
    {
        Held::Ordered(self)
    }

    /// The first variable, and the bound that it is at most.
    pub fn span(&self) -> Span
        ensures { said_span result ≡ order_span self.now.root self.now.other self.now.number }
    {
        Span {
            first: Bound::plus(self.root, 0),
            last: Bound::plus(self.other, self.number),
        }
    }

    // Whether its number is one that facts have.
    fn is_proper(&self) -> bool
        ensures { OnTrue result (ordered self.now.root self.now.other self.now.number ≡ Some (said_order self.now)) }
    {
        self.number > i32::MIN
    }

    // Whether it says that a bound is at most another.
    fn says_at_most(&self, left: Term, right: Term) -> bool
        ensures { result ≡ says_at_most (said_term left) (said_term right)
            (Ordered self.now.root self.now.other self.now.number) }
    {
        match (left.root, right.root) {
            (Some(root), Some(other)) => {
                let sum = self.number_with(left);
                root == self.root && other == self.other && sum <= right.number
            }
            _ => false,
        }
    }

    // Its number and that of a bound together.
    fn number_with(&self, term: Term) -> i64
        ensures { result ≡ self.now.number +ℤ (said_term term).number }
    {
        i64::from(self.number) + term.number
    }

    fn compare(&self, other: &Order) -> Ordering
        ensures { result ≡ held_order (Ordered self.now.root self.now.other self.now.number)
            (Ordered other.now.root other.now.other other.now.number) }
    {
        self.root
            .cmp(&other.root)
            .then(self.other.cmp(&other.other))
            .then(self.number.cmp(&other.number))
    }
}

impl Held {
    /// That what has single indexes is defined.
    pub fn at(row: usize, point: Point) -> Held
        ensures { said_held result ≡ stretched row (points (said_point point)) }
    {
        let inner = match point.inner {
            None => None,
            Some(inner) => Some(Span::at(inner)),
        };
        Held::within(row, Span::at(point.index), inner)
    }

    /// That what lies in a span of a row, or in two, is defined.
    pub fn within(row: usize, span: Span, inner: Option<Span>) -> Held
        ensures { said_held result ≡ stretched row (said_span span ∷ inner_spans inner) }
    {
        Held::Stretched(Stretch { row, span, inner })
    }

    /// The stretch that it is of, if it is of rows.
    pub fn stretch(&self) -> Option<Stretch>
        ensures { said_stretch_form result ≡ stretch_in (said_held self.now) }
    {
        match self {
            Held::Stretched(stretch) => Some(*stretch),
            Held::Ordered(_) => None,
        }
    }

    /// The span between the bounds that it has, and perhaps an inner one: it rests on the variables of these.
    pub fn ends(&self) -> (Span, Option<Span>)
        ensures { said_span result.0 ∷ inner_spans result.1 ≡ ends_of (said_held self.now) }
    {
        match self {
            Held::Stretched(stretch) => (stretch.span, stretch.inner),
            Held::Ordered(order) => (order.span(), None),
        }
    }

    /// With what it stands together in the order of what is held.
    pub fn group(&self) -> Group
        ensures { result ≡ group_of (said_held self.now) }
    {
        match self {
            Held::Stretched(stretch) => Group::Row(stretch.row),
            Held::Ordered(order) => Group::Pair(order.root, order.other),
        }
    }

    /// Whether a rebinding of a variable on which it doesn't rest leaves it as it is: an order whose number facts don't
    /// have goes at any.
    pub fn is_settled(&self) -> bool
        ensures { OnTrue result (IsSettled (said_held self.now)) }
    {
        match self {
            Held::Stretched(_) => true,
            Held::Ordered(order) => order.is_proper(),
        }
    }

    /// Whether it is the same as another.
    pub fn is_same(&self, other: &Held) -> bool
        ensures { OnTrue result (said_held self.now ≡ said_held other.now) }
    {
        match self.compare(other) {
            Ordering::Equal => true,
            _ => false,
        }
    }

    /// What becomes of it.
    pub fn by(self, how: Rebinding) -> Option<Held>
        ensures { said_more result ≡ held_by how (said_held self) }
    {
        match self {
            Held::Stretched(stretch) => {
                let stretch = stretch.by(how)?;
                Some(Held::Stretched(stretch))
            }
            Held::Ordered(order) => {
                let order = order.by(how)?;
                Some(Held::Ordered(order))
            }
        }
    }

    /// Whether it says that a bound is at most another.
    pub fn says_at_most(&self, left: Term, right: Term) -> bool
        ensures { result ≡ says_at_most (said_term left) (said_term right) (said_held self.now) }
    {
        match self {
            Held::Stretched(_) => false,
            Held::Ordered(order) => order.says_at_most(left, right),
        }
    }

    /// How it stands to another in the order of what is held.
    pub fn compare(&self, other: &Held) -> Ordering
        ensures { result ≡ held_order (said_held self.now) (said_held other.now) }
    {
        match (self, other) {
            (Held::Stretched(one), Held::Stretched(another)) => one.compare(another),
            (Held::Stretched(_), Held::Ordered(_)) => Ordering::Less,
            (Held::Ordered(_), Held::Stretched(_)) => Ordering::Greater,
            (Held::Ordered(one), Held::Ordered(another)) => one.compare(another),
        }
    }
}

impl Claim {
    /// What lies in a span of a row, or in two, is defined.
    pub fn in_spans(row: usize, span: Span, inner: Option<Span>) -> Claim
        ensures { said_claim result ≡ in_spans row (said_span span ∷ inner_spans inner) }
    {
        Claim::Holds(Held::within(row, span, inner))
    }

    /// A variable is at most another plus a number.
    pub fn at_most_by(root: u32, other: u32, number: i32) -> Claim
        ensures { said_claim result ≡ at_most_by root other number }
    {
        Claim::Holds(Held::Ordered(Order {
            root,
            other,
            number,
        }))
    }
}

impl Group {
    /// How it stands to another: rows come before pairs.
    pub fn compare(self, other: Group) -> Ordering
        ensures { result ≡ group_order self other }
    {
        match (self, other) {
            (Group::Row(row), Group::Row(another)) => row.cmp(&another),
            (Group::Row(_), Group::Pair(_, _)) => Ordering::Less,
            (Group::Pair(_, _), Group::Row(_)) => Ordering::Greater,
            (Group::Pair(root, other), Group::Pair(one, another)) => {
                root.cmp(&one).then(other.cmp(&another))
            }
        }
    }
}

// How inner spans stand to one another: none comes first.
fn compare_inner(one: Option<Span>, other: Option<Span>) -> Ordering
    ensures { result ≡ slice_cmp span_order (inner_spans one) (inner_spans other) }
{
    match (one, other) {
        (None, None) => Ordering::Equal,
        (None, Some(_)) => Ordering::Less,
        (Some(_), None) => Ordering::Greater,
        (Some(span), Some(another)) => span.compare(another),
    }
}

// The number of an order after a variable rose by a number that stands to the left, or to the right.
fn raised_number(left: bool, right: bool, by: i64, number: i32) -> i64
    requires { IsWithin (pos 2147483648) by }
    ensures { result ≡ raised_number left right by number }
{
    let number = i64::from(number);
    match (left, right) {
        (true, false) => number + by,
        (false, true) => number - by,
        _ => number,
    }
}

// The number of an order with a variable plus a number in the place of one that stands to the left, or to the right.
fn lowered_number(left: bool, right: bool, own: i32, number: i32) -> i64
    ensures { result ≡ raised_number left right (neg_ℤ own) number }
{
    raised_number(left, right, -i64::from(own), number)
}
