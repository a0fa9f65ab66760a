ghost use Rattle.std.specs.Prelude.{◌≡◌, ◌+ℤ◌, pos};
ghost use Rattle.checker_state.specs.Bounds.{is_at_most, raised_bound};
ghost use Rattle.checker_state.specs.Terms.{IsShort, IsShorter, IsWithin, bound_of_parts};

use crate::Bound;

/// A bound as it stands in a test: its number may be none that bounds have.
#[derive(Clone, Copy)]
pub struct Term {
    pub root: Option<u32>,
    pub number: i64,
    ghost short: { IsShort number },
}

impl Term {
    /// A bound itself.
    pub fn of(bound: Bound) -> Term
        ensures is { bound_of_parts result.root result.number ≡ bound_of_parts bound.root bound.number }
        ensures size { IsWithin (pos 2147483648) result.number }
    {
        Term {
            root: bound.root,
            number: i64::from(bound.number),
        }
    }

    /// One greater by a number.
    pub fn moved(self, by: i32) -> Term
        requires { IsShorter self.number }
        ensures is { bound_of_parts result.root result.number
            ≡ raised_bound by (bound_of_parts self.root self.number) }
        ensures number { result.number ≡ self.number +ℤ by }
    {
        Term {
            root: self.root,
            number: self.number + i64::from(by),
        }
    }

    /// Whether both are of the same variable, or of none, and the first is at most the second.
    pub fn is_at_most(self, other: Term) -> bool
        ensures { result ≡ is_at_most (bound_of_parts self.root self.number)
            (bound_of_parts other.root other.number) }
    {
        match (self.root, other.root) {
            (None, None) => self.number <= other.number,
            (Some(root), Some(another)) => root == another && self.number <= other.number,
            _ => false,
        }
    }
}
