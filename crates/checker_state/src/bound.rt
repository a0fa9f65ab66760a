ghost use Rattle.std.specs.Prelude.{◌≡◌};
ghost use Rattle.checker_state.specs.Bounds.{bound_order, constant, is_variable, moved_bound, plus, variable_order};
ghost use Rattle.checker_state.specs.Changes.{bound_rests_on, changed_bound_by};
ghost use Rattle.checker_state.specs.Stores.{bound_of_number};
ghost use Rattle.checker_state.specs.Terms.{IsFar};
ghost use Rattle.checker_state.specs.View.{bound_by, root_of, said_bound, said_form};

use std::cmp::Ordering;

/// A number, or the value of a variable, by its root number, plus a number.
#[derive(Clone, Copy)]
pub struct Bound {
    pub root: Option<u32>,
    pub number: i32,
}

/// What becomes of bounds that rest on a variable.
#[derive(Clone, Copy)]
pub enum Rebinding {
    /// The variable got a value, perhaps of a bound form.
    Changed { root: u32, form: Option<Bound> },
    /// A bound stands in its place.
    InPlace { root: u32, own: Bound },
}

impl Rebinding {
    /// The variable that is rebound.
    pub fn root(self) -> u32
        ensures { result ≡ root_of self }
    {
        match self {
            Rebinding::Changed { root, .. } => root,
            Rebinding::InPlace { root, .. } => root,
        }
    }
}

impl Bound {
    /// A number.
    pub fn constant(number: i32) -> Bound
        ensures { said_bound result ≡ constant number }
    {
        Bound { root: None, number }
    }

    /// A variable plus a number.
    pub fn plus(root: u32, number: i32) -> Bound
        ensures { said_bound result ≡ plus root number }
    {
        Bound {
            root: Some(root),
            number,
        }
    }

    /// A number, if it is one that bounds have.
    pub fn of_number(number: i64) -> Option<Bound>
        ensures { said_form result ≡ bound_of_number number }
    {
        if number < -2147483647 || 2147483647 < number {
            return None;
        }
        Some(Bound::constant(number as i32))
    }

    /// The bound plus a number, if it is one that bounds have.
    pub fn moved(self, by: i64) -> Option<Bound>
        requires { IsFar by }
        ensures { said_form result ≡ moved_bound by (said_bound self) }
    {
        let number = i64::from(self.number) + by;
        if number < -2147483647 || 2147483647 < number {
            return None;
        }
        Some(Bound {
            root: self.root,
            number: number as i32,
        })
    }

    /// Whether it rests on the value of a variable.
    pub fn rests_on(self, root: u32) -> bool
        ensures { result ≡ bound_rests_on root (said_bound self) }
    {
        is_variable(root, self.root)
    }

    /// What becomes of it.
    pub fn by(self, how: Rebinding) -> Option<Bound>
        ensures { said_form result ≡ bound_by how (said_bound self) }
    {
        match how {
            Rebinding::Changed { root, form } => {
                if !self.rests_on(root) {
                    return Some(self);
                }
                self.raised(root, form?)
            }
            Rebinding::InPlace { root, own } => {
                if !self.rests_on(root) {
                    return Some(self);
                }
                own.moved(i64::from(self.number))
            }
        }
    }

    // What becomes of a bound of a variable that got a value of a form: it moves with one that rose by a number.
    fn raised(self, root: u32, form: Bound) -> Option<Bound>
        ensures { said_form result ≡ changed_bound_by root (said_bound form) (said_bound self) }
    {
        if !form.rests_on(root) {
            return None;
        }
        self.moved(-i64::from(form.number))
    }

    /// How it stands to another in the order of bounds.
    pub fn compare(self, other: Bound) -> Ordering
        ensures { result ≡ bound_order (said_bound self) (said_bound other) }
    {
        compare_variables(self.root, other.root).then(self.number.cmp(&other.number))
    }
}

// Whether there is a variable, and it is this one.
fn is_variable(root: u32, variable: Option<u32>) -> bool
    ensures { result ≡ is_variable root variable }
{
    match variable {
        None => false,
        Some(other) => root == other,
    }
}

fn compare_variables(one: Option<u32>, other: Option<u32>) -> Ordering
    ensures { result ≡ variable_order one other }
{
    match (one, other) {
        (None, None) => Ordering::Equal,
        (None, Some(_)) => Ordering::Less,
        (Some(_), None) => Ordering::Greater,
        (Some(root), Some(another)) => root.cmp(&another),
    }
}
