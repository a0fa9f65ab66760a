use crate::{Array, Memory, Program};
use certificate::Fact;
use checker_rows::{Rows, limits};
use checker_state::{Bound, bound_form};
use domain::Version;
use domain::facts::{self, Spans};
use std::mem;
use typed_tree::Expr;

/// How many stretches of one array are proposed in a block at most, how many of its rows and of its columns, and how
/// many orders of one variable.
const MOST_OF_VARIABLE: usize = 24;

/// How many claims that name a variable count where it is changed or mentioned.
const MOST_NAMING: usize = 96;

/// How many claims are gathered before they are added.
pub(crate) const MANY: usize = 4096;

/// The least number at which an order begins.
const LEAST_NUMBER: i64 = -32;

/// A number, or the value of a variable plus a number.
#[derive(Clone, Copy, PartialEq, Eq, PartialOrd, Ord)]
pub struct End {
    pub(crate) root: Option<u32>,
    pub(crate) number: i64,
}

impl End {
    /// The bound that an expression is, if it is one.
    pub(crate) fn of(rows: &Rows, expression: &Expr) -> Option<End> {
        let bound = bound_form(Version::Three, rows, expression)?;
        let (root, number) = (bound.root, i64::from(bound.number));
        Some(End { root, number })
    }

    pub(crate) fn constant(number: i64) -> End {
        End { root: None, number }
    }

    pub(crate) fn variable(root: u32) -> End {
        End {
            root: Some(root),
            number: 0,
        }
    }

    pub(crate) fn moved(self, by: i64) -> End {
        let number = self.number.saturating_add(by);
        End { number, ..self }
    }

    // As certificates tell it, if its number is one that they have.
    fn said(self) -> Option<facts::Bound> {
        let number = Bound::of_number(self.number)?.number;
        Some(match self.root {
            None => facts::Bound::Number(number),
            Some(root) => facts::Bound::Plus { root, number },
        })
    }
}

/// Which elements of an array: all by their first index, or those of a matrix in one row by the second, those in one
/// column by the first, or those in all rows by the second.
#[derive(Clone, Copy, PartialEq, Eq, PartialOrd, Ord)]
pub enum Way {
    All,
    Row,
    Column,
    Across,
}

/// Elements that lie so, in which row or column, if it is one.
#[derive(Clone, Copy, PartialEq, Eq, PartialOrd, Ord)]
pub struct Line {
    pub(crate) way: Way,
    pub(crate) at: Option<End>,
}

impl Line {
    pub(crate) const ALL: Line = Line {
        way: Way::All,
        at: None,
    };

    pub(crate) const ACROSS: Line = Line {
        way: Way::Across,
        at: None,
    };
}

/// What may hold of variables.
#[derive(Clone, Copy, PartialEq, Eq, PartialOrd, Ord)]
pub enum Claim {
    /// Elements of an array from one end to another are defined.
    Defined(Array, Line, End, End),
    /// The value of one variable is at most that of another plus a number, from this on.
    Order(u32, u32, i64),
}

impl Claim {
    /// The variables that it names.
    pub fn roots(&self) -> [Option<u32>; 4] {
        match self {
            Claim::Defined(array, line, first, last) => {
                let other = line.at.and_then(|end| end.root);
                [Some(array.root), first.root, last.root, other]
            }
            Claim::Order(root, other, _) => [Some(*root), Some(*other), None, None],
        }
    }

    /// Whether it is of one of some variables, which ascend: of an array of theirs, or their order.
    pub fn is_of_any(&self, roots: &[u32]) -> bool {
        let has = |root| roots.binary_search(root).is_ok();
        match self {
            Claim::Defined(array, ..) => has(&array.root),
            Claim::Order(root, other, _) => has(root) || has(other),
        }
    }

    /// It as certificates tell it, if they have its numbers. An order begins below the least number that is told of it.
    pub fn fact(&self, program: &Program) -> Option<Fact> {
        match self {
            Claim::Defined(array, line, first, last) => {
                let types = &program.tree.types;
                // What lies deepest comes last.
                let mut parts = program.parts(array.root).iter().rev();
                let part = parts.find(|part| part.is_array(types, *array))?;
                let span = said_span(*first, *last)?;
                let spans = match (line.way, line.at) {
                    (Way::Row, Some(row)) => Spans::Two(said_span(row, row)?, span),
                    (Way::Column, Some(column)) => Spans::Two(span, said_span(column, column)?),
                    (Way::Across, _) => Spans::Two(all_indexes(program.rows, *array)?, span),
                    _ => Spans::One(span),
                };
                let path = part.path(&program.memory);
                Some(Fact::Defined { path, spans })
            }
            Claim::Order(root, other, least) => Some(Fact::Order {
                root: *root,
                other: *other,
                number: Bound::of_number(least.saturating_sub(1).max(LEAST_NUMBER).min(-1))?.number,
            }),
        }
    }

    // Of what it is, of columns of a matrix last: claims ascend by that.
    fn subject(&self) -> (bool, Array, Way) {
        match self {
            Claim::Defined(array, line, ..) => (false, *array, line.way),
            Claim::Order(root, ..) => (true, Array::of(*root), Way::All),
        }
    }

    // How many others of the same stand among claims that ascend.
    fn beside(&self, claims: &[Claim]) -> usize {
        let first = claims.partition_point(|other| other.subject() < self.subject());
        let end = claims.partition_point(|other| other.subject() <= self.subject());
        end.saturating_sub(first)
    }

    // Whether it is among claims that ascend, or an order that begins lower.
    fn is_told(&self, claims: &[Claim]) -> bool {
        let behind = claims.partition_point(|other| *other <= *self);
        let last = behind.checked_sub(1).and_then(|place| claims.get(place));
        last.is_some_and(|last| last.is_twin(self))
    }

    // Whether it is the same, or an order of the same variables.
    fn is_twin(&self, other: &Claim) -> bool {
        match (self, other) {
            (Claim::Order(one, another, _), Claim::Order(root, second, _)) => {
                one == root && another == second
            }
            _ => self == other,
        }
    }
}

/// Adds what was found to claims, which ascend, once it is more than so many: each, unless there are many of the same.
/// Of orders of the same variables the one stays that begins the lowest.
pub(crate) fn add_all(
    memory: &Memory,
    claims: &mut Vec<Claim>,
    found: &mut Vec<Claim>,
    many: usize,
) {
    if found.len() <= many {
        return;
    }
    let mut fresh = mem::replace(found, memory.none());
    fresh.retain(|claim| !claim.is_told(claims));
    fresh.sort_unstable();
    fresh.dedup_by(|next, one| one.is_twin(next));
    let mut added = memory.none();
    for claim in fresh {
        if claim.beside(claims).saturating_add(claim.beside(&added)) < MOST_OF_VARIABLE {
            memory.push(&mut added, claim);
        }
    }
    if !added.is_empty() {
        memory.put(claims.append(&mut added));
        claims.sort_unstable();
        claims.dedup_by(|next, one| one.is_twin(next));
    }
}

/// Claims by the variables that they name; it ascends.
pub(crate) fn by_name(memory: &Memory, claims: &[Claim]) -> Vec<(u32, Claim)> {
    let mut named = memory.none();
    for claim in claims {
        for root in claim.roots().iter().flatten() {
            memory.push(&mut named, (*root, *claim));
        }
    }
    named.sort_unstable();
    named.dedup();
    named
}

/// Those that name one of some variables; one may stand there more than once.
pub fn naming(memory: &Memory, named: &[(u32, Claim)], roots: &[u32]) -> Vec<Claim> {
    let mut claims = memory.none();
    for root in roots {
        let first = named.partition_point(|(other, _)| *other < *root);
        let behind = named.get(first..).unwrap_or(&[]).iter().take(MOST_NAMING);
        let theirs = behind.take_while(|(other, _)| *other == *root);
        memory.put(claims.extend(theirs.map(|(_, claim)| *claim)));
    }
    claims
}

// That of all first indexes of an array.
fn all_indexes(rows: &Rows, array: Array) -> Option<facts::Span> {
    let values = limits(rows.index(array.row)?);
    said_span(End::constant(values.first()), End::constant(values.last()))
}

// A span as certificates tell it, if they have its numbers.
fn said_span(first: End, last: End) -> Option<facts::Span> {
    let (first, last) = (first.said()?, last.said()?);
    Some(facts::Span { first, last })
}
