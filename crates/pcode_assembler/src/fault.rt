ghost use Rattle.std.specs.Prelude.{◌≡◌};
ghost use Rattle.memory.specs.Refused.{the_refusal};
ghost use Rattle.pcode_assembler.specs.declared.fault.AsmFault.TheVariants.{Memory};

use memory::Refused;
use std::alloc::AllocError;
use thiserror::Error;

/// The rule of a code's text that a line breaks. A1 to A6 are the codes that a user is told.
#[derive(Clone, Copy, Debug, Error)]
pub enum AsmRule {
    /// A line that no code has, or one out of its place.
    #[error("A1")]
    UnknownLine,
    /// Operands of another form, another count, or out of their range.
    #[error("A2")]
    Operand,
    /// A jump to a label that isn't there, or has no instruction after it.
    #[error("A3")]
    Target,
    /// A label that stands above already.
    #[error("A4")]
    LabelTwice,
    /// An instruction above the 1,000,000th.
    #[error("A5")]
    TooMany,
    /// A last line other than `end` with its line end.
    #[error("A6")]
    CutOff,
}

/// Why a text is no code's. Lines are numbered from 1, in 64 bits since a text has no greatest length.
#[derive(Clone, Copy, Debug, Error)]
pub enum AsmFault {
    #[error("no memory")]
    Memory(Refused),
    /// The first faulty line.
    #[error("code:{line}: refused {rule}")]
    Refused { rule: AsmRule, line: u64 },
}

impl AsmRule {
    ghost use Rattle.pcode_assembler.specs.Faults.{code_of, unless};

    /// Its number behind the letter A, from 1 to 6.
    pub fn number(&self) -> u8
        ensures { result ≡ code_of self.now }
    {
        match self {
            AsmRule::UnknownLine => 1,
            AsmRule::Operand => 2,
            AsmRule::Target => 3,
            AsmRule::LabelTwice => 4,
            AsmRule::TooMany => 5,
            AsmRule::CutOff => 6,
        }
    }

    /// The rule, unless it is kept.
    pub(crate) fn unless(self, is_kept: bool) -> Option<AsmRule>
        ensures { result ≡ unless self is_kept }
    {
        if is_kept { None } else { Some(self) }
    }
}

impl From<AllocError> for AsmFault {
    ghost from_gives = { λ _ e. e ≡ Memory the_refusal };

    fn from(error: AllocError) -> AsmFault {
        AsmFault::Memory(error.into())
    }
}
