ghost use Rattle.std.specs.Prelude.{◌≡◌};
ghost use Rattle.memory.specs.Refused.{the_refusal};
ghost use Rattle.reading.specs.declared.refusal.Refusal.TheVariants.{Memory};

use memory::Refused;
use place::Place;
use std::alloc::{AllocError, AllocFailed};

/// Why a rule of the grammar stops.
#[derive(Clone, Copy)]
pub enum Refusal {
    Memory(Refused),
    /// At the next token, with which no program goes on, or at the end of the text where none is left.
    NoProgram,
    /// Where the nesting passes the limit: at a token, or at the end of the text, which has no token.
    TooDeep(Option<Place>),
}

impl From<AllocError> for Refusal {
    ghost from_gives = { λ _ e. e ≡ Memory the_refusal };

    fn from(error: AllocError) -> Refusal {
        Refusal::Memory(error.into())
    }
}

impl<T: Drop> From<AllocFailed<T>> for Refusal {
    ghost from_gives = { λ _ e. e ≡ Memory the_refusal };

    fn from(error: AllocFailed<T>) -> Refusal {
        Refusal::Memory(error.into())
    }
}
