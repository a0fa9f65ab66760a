//! What is seen where sites are open.

use checker_state::{Bound, Order, Span};
use domain::Interval;
use place::Place;

/// What was seen on the way through a program.
#[derive(Drop)]
pub struct Sights {
    /// By the ids of sites.
    pub seen: Vec<Sight>,
    /// Of each variable that is used the site of a use, by root numbers.
    pub uses: Vec<Option<u32>>,
    /// Of each row that is a value parameter what a call gives it that gives most.
    pub given: Vec<Option<Loss>>,
}

/// What is known at a site.
#[derive(Clone, Copy)]
pub enum Sight {
    /// No value is tested.
    Nothing,
    /// A value, or both operands of a result, and where the value or the left operand has to lie; nowhere, where that
    /// is no range, or where the right operand is no number.
    Value(Operand, Option<Operand>, Interval),
    /// An element that has to be defined.
    Element(Near),
}

/// A value, and where it lies.
#[derive(Clone, Copy)]
pub struct Operand {
    /// Of a variable or a component the site of its use, and its row.
    pub used: Option<(u32, usize)>,
    pub range: Interval,
    /// Where more was known of it.
    pub lost: Option<Loss>,
}

/// What was known of a row before what stands at a place.
#[derive(Clone, Copy)]
pub struct Loss {
    pub was: Interval,
    pub by: Cause,
    pub at: Place,
}

/// What stands there.
#[derive(Clone, Copy)]
pub enum Cause {
    /// A loop that changes it.
    Loop,
    /// A call that changes it.
    Call,
    /// A call that is given it.
    Given,
}

/// A stretch that is known to be defined, beside an index in a range.
#[derive(Clone, Copy)]
pub struct Near {
    pub span: Span,
    pub index: Bound,
    pub range: Interval,
    /// The first of these is not known to be at most the second.
    pub missing: (Bound, Bound),
    /// What the variable of the index is known to be at most.
    pub most: Option<Order>,
}
