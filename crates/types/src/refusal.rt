ghost use Rattle.std.specs.Prelude.{◌≡◌};
ghost use Rattle.memory.specs.Refused.{the_refusal};
ghost use Rattle.types.specs.declared.refusal.TypeRefusal.TheVariants.{Memory};

use memory::Refused;
use std::alloc::AllocFailed;

/// Why a form can't be a type of a table.
#[derive(Clone, Copy)]
pub enum TypeRefusal {
    Memory(Refused),
    /// Y1: the first value of a subrange lies above its last (6.4.2.4).
    FirstAboveLast,
    /// Y2: a variable of the type takes over 65,536 cells.
    TooManyCells,
    /// Y3: a member of a set may lie outside 0 to 127 (6.4.3.4).
    MembersOutOfRange,
}

impl<T: Drop> From<AllocFailed<T>> for TypeRefusal {
    ghost from_gives = { λ _ e. e ≡ Memory the_refusal };

    fn from(error: AllocFailed<T>) -> TypeRefusal {
        TypeRefusal::Memory(error.into())
    }
}
