use crate::Bound;
use domain::Interval;

/// An index by its value: the bound that it is, if it is one, and where it lies.
#[derive(Clone, Copy)]
pub struct Index {
    pub form: Option<Bound>,
    pub range: Interval,
}

/// The first indexes of an access, of which two are kept.
#[derive(Clone, Copy)]
pub enum Indexes {
    /// There is none.
    Entire,
    One(Index),
    Two(Index, Index),
}

/// What an access reaches of the rows under it: of each the components of these first indexes; all of these, or some.
#[derive(Clone, Copy)]
pub struct Reach {
    pub indexes: Indexes,
    pub is_all: bool,
}
