ghost use Rattle.std.specs.Prelude.{◌≡◌};
ghost use Rattle.checker_rows.specs.Limits.{limits_of, limits_or_integer};

use domain::{Domain, Interval};
use types::OrdinalRange;

/// The values of a type, which are integers.
pub fn limits(range: OrdinalRange) -> Interval
    ensures { result ≡ limits_of range }
{
    Interval::INTEGER.meet(&Interval::between(range.first, range.last))
}

/// The values of a type; those of integer, where the tree doesn't tell it.
pub fn limits_or_integer(range: Option<OrdinalRange>) -> Interval
    ensures { result ≡ limits_or_integer range }
{
    match range {
        None => Interval::INTEGER,
        Some(range) => limits(range),
    }
}
