ghost use Rattle.std.specs.Prelude.{◌≡◌};
ghost use Rattle.checker_state.specs.Values.{known_range};

use domain::{Hull, Interval};

/// What the walk knows of a value.
#[derive(Clone, Copy)]
pub enum Known {
    /// An ordinal: the range of its number.
    Ordinal(Interval),
    /// A set: the range of its members.
    Set(Hull),
}

impl Known {
    /// The range of an ordinal, or that of the members of a set.
    pub fn range(self) -> Interval
        ensures { result ≡ known_range self }
    {
        match self {
            Known::Ordinal(range) => range,
            Known::Set(hull) => hull.range(),
        }
    }
}
