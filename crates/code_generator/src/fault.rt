ghost use Rattle.std.specs.Prelude.{◌≡◌};
ghost use Rattle.memory.specs.Refused.{the_refusal};
ghost use Rattle.code_generator.specs.declared.fault.GenFault.TheVariants.{Memory};
ghost use Rattle.code_generator.specs.Faults.{fault_of};

use code_emitter::Loss;
use memory::Refused;
use std::alloc::AllocError;
use thiserror::Error;

/// Why a typed tree has no code.
#[derive(Clone, Copy, Debug, Error)]
pub enum GenFault {
    #[error("no memory")]
    Memory(Refused),
    /// G1: over 1,000,000 instructions, or a block with over 65,536 cells of parameters. No program text has what it is
    /// told of too: sites or points for which a text of code has no room.
    #[error("code that is too large")]
    TooLarge,
}

impl From<AllocError> for GenFault {
    ghost from_gives = { λ _ e. e ≡ Memory the_refusal };

    fn from(error: AllocError) -> GenFault {
        GenFault::Memory(error.into())
    }
}

impl From<Loss> for GenFault {
    ghost from_gives = { λ loss e. e ≡ fault_of loss };

    fn from(loss: Loss) -> GenFault {
        match loss {
            Loss::Memory(refused) => GenFault::Memory(refused),
            Loss::TooLarge => GenFault::TooLarge,
        }
    }
}
