ghost use Rattle.std.specs.Prelude.{◌≡◌};
ghost use Rattle.memory.specs.Refused.{the_refusal};
ghost use Rattle.scopes.specs.declared.fault.ScopeFault.TheVariants.{Memory};

use memory::Refused;
use std::alloc::{AllocError, AllocFailed};

/// Why a name has no meaning, or gets none.
#[derive(Clone, Copy)]
pub enum ScopeFault {
    Memory(Refused),
    DeclaredTwice,
    UsedBeforeDeclared,
    NotDeclared,
}

impl From<AllocError> for ScopeFault {
    ghost from_gives = { λ _ e. e ≡ Memory the_refusal };

    fn from(error: AllocError) -> ScopeFault {
        ScopeFault::Memory(error.into())
    }
}

impl<T: Drop> From<AllocFailed<T>> for ScopeFault {
    ghost from_gives = { λ _ e. e ≡ Memory the_refusal };

    fn from(error: AllocFailed<T>) -> ScopeFault {
        ScopeFault::Memory(error.into())
    }
}
