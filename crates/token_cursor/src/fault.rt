ghost use Rattle.std.specs.Prelude.{◌≡◌};
ghost use Rattle.token_cursor.specs.ParseFault.{end_of, fault_of, place_at};

use lexer::token::Token;
use memory::Refused;
use place::Place;
use reading::refusal::Refusal;
use thiserror::Error;

/// Why a list of tokens has no syntax tree.
#[derive(Clone, Copy, Debug, Error)]
pub enum ParseFault {
    #[error("no memory")]
    Memory(Refused),
    /// P1, where no program goes on: at a token, or just past the end of the text.
    #[error("{0}: no program")]
    NoProgram(Place),
    /// P2, where the nesting passes 128.
    #[error("{0}: nested deeper than 128")]
    TooDeep(Place),
    /// P3, at the first label, goto, nil, file or `^`.
    #[error("{0}: a form that this language leaves out")]
    LeftOut(Place),
}

impl ParseFault {
    ghost use Rattle.token_cursor.specs.ParseFault.{code_of, place_of_fault};

    /// Its number behind the letter P, from 1 to 3, or 0 for `Memory`.
    pub fn number(&self) -> u8
        ensures { result ≡ code_of self.now }
    {
        match self {
            ParseFault::Memory(_) => 0,
            ParseFault::NoProgram(_) => 1,
            ParseFault::TooDeep(_) => 2,
            ParseFault::LeftOut(_) => 3,
        }
    }

    /// Where it stands in the text. `Memory` stands nowhere.
    pub fn place(&self) -> Option<Place>
        ensures { result ≡ place_of_fault self.now }
    {
        match self {
            ParseFault::Memory(_) => None,
            ParseFault::NoProgram(place)
            | ParseFault::TooDeep(place)
            | ParseFault::LeftOut(place) => Some(*place),
        }
    }
}

/// The fault that a refusal is of these tokens, of which so many are left.
pub fn fault_of(tokens: &[Token<'_>], left: usize, refusal: Refusal) -> ParseFault
    ensures { result ≡ fault_of tokens.now left refusal }
{
    match refusal {
        Refusal::Memory(refused) => ParseFault::Memory(refused),
        Refusal::NoProgram => {
            ParseFault::NoProgram(place_at(tokens, tokens.len().saturating_sub(left)))
        }
        Refusal::TooDeep(at) => ParseFault::TooDeep(at.unwrap_or(end_of(tokens))),
    }
}

// Where the token of a number stands, or the end where there is none.
fn place_at(tokens: &[Token<'_>], number: usize) -> Place
    ensures { result ≡ place_at tokens.now number }
{
    match tokens.get(number) {
        None => end_of(tokens),
        Some(token) => token.place,
    }
}

// Just past the last token, or where a text begins if there is none.
fn end_of(tokens: &[Token<'_>]) -> Place
    ensures { result ≡ end_of tokens.now }
{
    match tokens.last() {
        None => Place::START,
        Some(token) => {
            let length = u32::try_from(token.text.len()).unwrap_or(u32::MAX);
            Place {
                line: token.place.line,
                column: token.place.column.saturating_add(length),
            }
        }
    }
}
