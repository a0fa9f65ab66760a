ghost use Rattle.std.specs.Prelude.{◌≡◌};
ghost use Rattle.memory.specs.Refused.{the_refusal};
ghost use Rattle.certificate.specs.declared.fault.ReadFault.TheVariants.{Memory};

use memory::Refused;
use std::alloc::AllocError;
use thiserror::Error;

/// Why a text is no certificate. Lines are numbered from 1, in 64 bits since a text has no greatest length. F1 to F5
/// are the codes that a user is told.
#[derive(Clone, Copy, Debug, Error)]
pub enum ReadFault {
    #[error("no memory")]
    Memory(Refused),
    /// F1, a first line that names no version; at line 1 of a text without lines.
    #[error("{line}: no certificate")]
    FirstLine { line: u64 },
    /// F2, a line that no certificate of its version has.
    #[error("{line}: no line of a certificate")]
    NotInGrammar { line: u64 },
    /// F3, a line that stands where it may not, or a heading with no line below it.
    #[error("{line}: a line out of its place")]
    OutOfOrder { line: u64 },
    /// F4, a number out of its range.
    #[error("{line}: a number out of its range")]
    OutOfRange { line: u64 },
    /// F5, a last line without its line end.
    #[error("{line}: a line without its end")]
    Unended { line: u64 },
}

impl ReadFault {
    ghost use Rattle.certificate.specs.Faults.{line_of, code_of};

    /// Its number behind the letter F, from 1 to 5, or 0 for `Memory`.
    pub fn number(&self) -> u8
        ensures { result ≡ code_of self.now }
    {
        match self {
            ReadFault::Memory(_) => 0,
            ReadFault::FirstLine { .. } => 1,
            ReadFault::NotInGrammar { .. } => 2,
            ReadFault::OutOfOrder { .. } => 3,
            ReadFault::OutOfRange { .. } => 4,
            ReadFault::Unended { .. } => 5,
        }
    }

    /// Its line. `Memory` has none.
    pub fn line(&self) -> Option<u64>
        ensures { result ≡ line_of self.now }
    {
        match self {
            ReadFault::Memory(_) => None,
            ReadFault::FirstLine { line }
            | ReadFault::NotInGrammar { line }
            | ReadFault::OutOfOrder { line }
            | ReadFault::OutOfRange { line }
            | ReadFault::Unended { line } => Some(*line),
        }
    }
}

impl From<AllocError> for ReadFault {
    ghost from_gives = { λ _ e. e ≡ Memory the_refusal };

    fn from(error: AllocError) -> ReadFault {
        ReadFault::Memory(error.into())
    }
}
