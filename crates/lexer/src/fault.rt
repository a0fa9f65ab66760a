ghost use Rattle.std.specs.Prelude.{◌≡◌};
ghost use Rattle.memory.specs.Refused.{the_refusal};
ghost use Rattle.lexer.specs.declared.fault.LexFault.TheVariants.{Memory};

use memory::Refused;
use place::Place;
use std::alloc::AllocFailed;
use thiserror::Error;

/// Why a text has no list of tokens.
#[derive(Clone, Copy, Debug, Error)]
pub enum LexFault {
    #[error("no memory")]
    Memory(Refused),
    /// L1, at a byte that begins no token.
    #[error("{0}: a byte that begins no token")]
    UnknownByte(Place),
    /// L2, where a comment opens that doesn't close.
    #[error("{0}: a comment that doesn't close")]
    OpenComment(Place),
    /// L3, where a string opens that doesn't close in its line.
    #[error("{0}: a string that doesn't close in its line")]
    OpenString(Place),
    /// L4, at a string without an element.
    #[error("{0}: a string without an element")]
    EmptyString(Place),
    /// L5, at a number above 2147483647.
    #[error("{0}: a number above 2147483647")]
    LargeNumber(Place),
    /// L6, at a number with a letter directly after it.
    #[error("{0}: a number that touches a letter")]
    TouchingLetter(Place),
    /// L7, at 1:1: a text of more than 1,048,576 bytes.
    #[error("{0}: a text of more than 1048576 bytes")]
    LongText(Place),
    /// L8, at a byte outside 32 to 126 in a string.
    #[error("{0}: a byte in a string that is no printable character")]
    StringByte(Place),
}

impl LexFault {
    ghost use Rattle.lexer.specs.LexFault.{code_of, place_of_fault};

    /// Its number behind the letter L, from 1 to 8, or 0 for `Memory`.
    pub fn number(&self) -> u8
        ensures { result ≡ code_of self.now }
    {
        match self {
            LexFault::Memory(_) => 0,
            LexFault::UnknownByte(_) => 1,
            LexFault::OpenComment(_) => 2,
            LexFault::OpenString(_) => 3,
            LexFault::EmptyString(_) => 4,
            LexFault::LargeNumber(_) => 5,
            LexFault::TouchingLetter(_) => 6,
            LexFault::LongText(_) => 7,
            LexFault::StringByte(_) => 8,
        }
    }

    /// Where it stands in the text. `Memory` stands nowhere.
    pub fn place(&self) -> Option<Place>
        ensures { result ≡ place_of_fault self.now }
    {
        match self {
            LexFault::Memory(_) => None,
            LexFault::UnknownByte(place)
            | LexFault::OpenComment(place)
            | LexFault::OpenString(place)
            | LexFault::EmptyString(place)
            | LexFault::LargeNumber(place)
            | LexFault::TouchingLetter(place)
            | LexFault::LongText(place)
            | LexFault::StringByte(place) => Some(*place),
        }
    }
}

impl<T: Drop> From<AllocFailed<T>> for LexFault {
    ghost from_gives = { λ _ e. e ≡ Memory the_refusal };

    fn from(error: AllocFailed<T>) -> LexFault {
        LexFault::Memory(error.into())
    }
}
