ghost use Rattle.std.specs.Prelude.{◌≡◌};
ghost use Rattle.memory.specs.Refused.{the_refusal};
ghost use Rattle.checker_expressions.specs.declared.fault.CheckFault.TheVariants.{Memory};

use memory::Refused;
use place::Place;
use std::alloc::{AllocError, AllocFailed};
use thiserror::Error;

/// What a rule asks of a certificate at a place of the program, by the code that a user is told.
#[derive(Clone, Copy, Debug)]
pub enum Rule {
    /// C2: the facts of a loop are given where the loop is entered.
    LoopEntry,
    /// C3: the facts of a loop are given after each of its turns.
    LoopTurn,
    /// C4: the exit facts of a block are given at its end.
    Exit,
    /// C5: the entry facts of a block are given where it is called.
    CallEntry,
    /// C6: variables that share a place in a call are a pair of aliases of its block.
    Aliases,
    /// C7: what a loop or a block changes is among its changes.
    Changes,
}

impl Rule {
    ghost use Rattle.checker_expressions.specs.Rules.{code_of};

    /// Its number behind the letter C, from 2 to 7.
    pub fn number(self) -> u8
        ensures { result ≡ code_of self }
    {
        match self {
            Rule::LoopEntry => 2,
            Rule::LoopTurn => 3,
            Rule::Exit => 4,
            Rule::CallEntry => 5,
            Rule::Aliases => 6,
            Rule::Changes => 7,
        }
    }
}

/// A rule of certificates that is broken at a place.
#[derive(Clone, Copy)]
pub struct Breach {
    pub rule: Rule,
    pub place: Place,
}

/// Why a certificate gets no verdict.
#[derive(Clone, Copy, Debug, Error)]
pub enum CheckFault {
    #[error("no memory")]
    Memory(Refused),
    /// More variables or blocks than 32 bits number, or more statements and expressions than 64 bits count. Typing
    /// takes no such program (K10).
    #[error("the program is too large")]
    TooLarge,
    /// C1: the certificate names what the program doesn't have.
    #[error("the certificate names what the program does not have")]
    Foreign,
    /// A rule that is broken, and where.
    #[error("{place}: the certificate breaks a rule")]
    Broken { rule: Rule, place: Place },
}

impl From<AllocError> for CheckFault {
    ghost from_gives = { λ _ e. e ≡ Memory the_refusal };

    fn from(error: AllocError) -> CheckFault {
        CheckFault::Memory(error.into())
    }
}

impl<T: Drop> From<AllocFailed<T>> for CheckFault {
    ghost from_gives = { λ _ e. e ≡ Memory the_refusal };

    fn from(error: AllocFailed<T>) -> CheckFault {
        CheckFault::Memory(error.into())
    }
}
