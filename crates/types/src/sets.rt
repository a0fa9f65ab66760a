ghost use Rattle.std.specs.Prelude.{◌≡◌};
ghost use Rattle.types.specs.Types.{agree, are_compatible_sets, either_told, is_same, joined_base};

use crate::TypeId;

/// What a value is a set of (6.4.3.4, 6.7.1), as far as it is told: a set constructor is of packed sets and of others
/// both, and the one without members is of the sets of each host type.
#[derive(Clone, Copy)]
pub struct SetBase {
    /// The host type of the members.
    pub host: Option<TypeId>,
    pub packed: Option<bool>,
}

impl SetBase {
    /// Whether both may be sets of one type (6.4.5).
    pub fn compatible(self, other: SetBase) -> bool
        ensures { result ≡ are_compatible_sets self other }
    {
        let hosts = match (self.host, other.host) {
            (Some(host), Some(other)) => host.same(other),
            _ => true,
        };
        let packing = match (self.packed, other.packed) {
            (Some(packed), Some(other)) => packed == other,
            _ => true,
        };
        hosts && packing
    }

    /// What is told of either of two sets that are compatible.
    pub fn joined(self, other: SetBase) -> SetBase
        ensures { result ≡ joined_base self other }
    {
        SetBase {
            host: self.host.or(other.host),
            packed: self.packed.or(other.packed),
        }
    }
}
