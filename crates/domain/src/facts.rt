ghost use Rattle.std.specs.Prelude.{◌≡◌, length, map};
ghost use Rattle.std.specs.Cmp.Lexicographic.{slice_cmp};
ghost use Rattle.std.specs.Ordering.{nat_cmp, ordering_then};
ghost use Rattle.domain.specs.Facts.{bound_order, path_order, said_bound, said_path, said_span, said_spans};
ghost use Rattle.domain.specs.Facts.{said_step, span_order, step_order};

use std::cmp::Ordering;

/// A step of a path.
#[derive(Drop)]
pub enum Step {
    /// To all elements of an array (ISO 7185:1990, 6.5.3.2).
    Element,
    /// To the field of a record (6.5.3.3), by its name in small letters.
    Field { name: Vec<u8> },
}

/// The way to a part of a variable, or to a part of each of its elements.
#[derive(Drop)]
pub struct Path {
    /// The root number of the variable, at most 999,999.
    pub root: u32,
    pub steps: Vec<Step>,
}

/// A number, or the value of a variable, which is told by its root number, plus a number.
#[derive(Clone, Copy)]
pub enum Bound {
    Number(i32),
    Plus { root: u32, number: i32 },
}

/// The numbers between two bounds.
#[derive(Clone, Copy)]
pub struct Span {
    pub first: Bound,
    pub last: Bound,
}

/// The spans in which the indexes of elements lie, the first index in the first.
#[derive(Clone, Copy)]
pub enum Spans {
    /// What lies at a path is meant as a whole.
    None,
    One(Span),
    /// Elements of a matrix, by both their indexes.
    Two(Span, Span),
}

impl Step {
    /// How the step stands to another: all elements before fields, and fields by their names.
    fn compare(&self, other: &Step) -> Ordering
        ensures { result ≡ step_order (said_step self.now) (said_step other.now) }
    {
        match (self, other) {
            (Step::Element, Step::Element) => Ordering::Equal,
            (Step::Element, Step::Field { .. }) => Ordering::Less,
            (Step::Field { .. }, Step::Element) => Ordering::Greater,
            (Step::Field { name: a }, Step::Field { name: b }) => a.as_slice().cmp(b.as_slice()),
        }
    }
}

impl Path {
    /// How the path stands to another in the order of paths: by their variables, and then step by step.
    pub fn compare(&self, other: &Path) -> Ordering
        ensures { result ≡ path_order (said_path self.now) (said_path other.now) }
    {
        self.root
            .cmp(&other.root)
            .then(compare_steps(&self.steps, &other.steps))
    }
}

impl Bound {
    /// How the bound stands to another in the order of bounds.
    pub fn compare(&self, other: &Bound) -> Ordering
        ensures { result ≡ bound_order (said_bound self.now) (said_bound other.now) }
    {
        match (self, other) {
            (Bound::Number(a), Bound::Number(b)) => a.cmp(b),
            (Bound::Number(_), Bound::Plus { .. }) => Ordering::Less,
            (Bound::Plus { .. }, Bound::Number(_)) => Ordering::Greater,
            (Bound::Plus { root: v, number: a }, Bound::Plus { root: w, number: b }) => {
                v.cmp(w).then(a.cmp(b))
            }
        }
    }
}

impl Span {
    /// How the span stands to another: by their first bounds, and then by their last ones.
    fn compare(&self, other: &Span) -> Ordering
        ensures { result ≡ span_order (said_span self.now) (said_span other.now) }
    {
        self.first
            .compare(&other.first)
            .then(self.last.compare(&other.last))
    }
}

impl Spans {
    /// How what is defined in the spans stands to what is in others: fewer spans come first, then paths decide, how
    /// these stand, and then the first spans that differ.
    pub fn compare(self, other: Spans, paths: Ordering) -> Ordering
        ensures { result ≡ ordering_then (nat_cmp (length (said_spans self)) (length (said_spans other)))
            (ordering_then paths (slice_cmp span_order (said_spans self) (said_spans other))) }
    {
        match (self, other) {
            (Spans::None, Spans::None) => paths,
            (Spans::One(a), Spans::One(b)) => paths.then(a.compare(&b)),
            (Spans::Two(a, b), Spans::Two(c, d)) => paths.then(a.compare(&c).then(b.compare(&d))),
            (Spans::None, _) | (_, Spans::Two(..)) => Ordering::Less,
            (_, Spans::None) | (Spans::Two(..), _) => Ordering::Greater,
        }
    }
}

/// How steps stand to others: the first ones that differ decide, and then which end first.
fn compare_steps(steps: &[Step], others: &[Step]) -> Ordering
    ensures { result ≡ slice_cmp step_order (map said_step steps.now) (map said_step others.now) }
{
    for (place, step) in steps.iter().enumerate() {
        let Some(other) = others.get(place) else {
            return Ordering::Greater;
        };
        let order = step.compare(other);
        if order.is_ne() {
            return order;
        }
    }
    if steps.len() < others.len() {
        Ordering::Less
    } else {
        Ordering::Equal
    }
}
