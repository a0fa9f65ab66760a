ghost use Rattle.std.specs.Prelude.{◌≡◌, ◌+◌, ◌^◌, ◌<◌, ◌≤◌, ◌↔◌, ◌≢◌, List, map, length, take, IfOk, IfErr, IsErrOf};
ghost use Rattle.lexer.specs.Piece.{offset_of};
ghost use Rattle.place.specs.Place.{start, place_after, ArePlacesInOrder};
ghost use Rattle.lexer.specs.Tokens.{Lexeme, lexeme_of, fault_of, IsTokenList, IsFirstFault};
ghost use Rattle.memory.specs.Refused.{the_refusal};
ghost use Rattle.lexer.specs.declared.fault.LexFault.{LexFault};

use crate::fault::LexFault;
use crate::piece::{Piece, Refusal, next_piece};
use crate::token::Token;
use place::Place;
use std::alloc::Global;

/// The most bytes that a text may have.
pub const MAX_TEXT: usize = 1048576;

/// The tokens of a text, in order (6.1), or its first fault: L7 of a text above `MAX_TEXT` before
/// all others, then the first in the text, and of two at one place the one with the lower number.
/// The tokens are as long as can be, and nothing but blanks, line ends and comments stands between
/// them (6.1.8); their places ascend. A text has at most one list, at most one first fault, and
/// never both. `Memory` is the only other answer.
pub fn tokens<'a>(alloc: Global, text: &'a [u8]) -> Result<Vec<Token<'a>>, LexFault>
    ensures list { IfOk result (λ found. IsTokenList text.now (map lexeme_of found.items)) }
    ensures in_order { IfOk result (λ found. ArePlacesInOrder (map (λ token. token.place) found.items)) }
    ensures fault { IfErr result (λ found. found ≢ LexFault.Memory the_refusal → IsFirstFault text.now found) }
    ensures one_list { (a b : List Lexeme)
        → IsTokenList text.now a → IsTokenList text.now b → a ≡ b }
    ensures one_fault { (a b : LexFault)
        → IsFirstFault text.now a → IsFirstFault text.now b → a ≡ b }
    ensures list_or_fault { (list : List Lexeme) (found : LexFault)
        → IsTokenList text.now list → IsFirstFault text.now found → ⊥ }
    ensures long { IsErrOf result (LexFault.LongText start) ↔ (MAX_TEXT < length text.now) }
{
    let mut place = Place::START;
    if text.len() > MAX_TEXT {
        return Err(LexFault::LongText(place));
    }
    let mut tokens = Vec::new(alloc);
    let mut rest = text;
    while !rest.is_empty() {
        let (piece, length) = match next_piece(rest) {
            Ok(found) => found,
            Err(refusal) => return Err(fault_of(refusal, place, rest)),
        };
        let (text, behind) = rest.split_at(length);
        if let Piece::Token(kind) = piece {
            tokens.push(Token { kind, text, place })?;
        }
        place = place.after(text);
        rest = behind;
    }
    Ok(tokens)
}

/// The fault of a text that is refused with this rest, which begins at `place`.
fn fault_of(refusal: Refusal, place: Place, rest: &[u8]) -> LexFault
    requires within { offset_of refusal ≤ length rest.now }
    requires line_fits { place.line + length rest.now < 2 ^ 32 }
    requires column_fits { place.column + length rest.now < 2 ^ 32 }
    ensures { result ≡ fault_of refusal (place_after place (take (offset_of refusal) rest.now)) }
{
    match refusal {
        Refusal::UnknownByte => LexFault::UnknownByte(place),
        Refusal::OpenComment => LexFault::OpenComment(place),
        Refusal::OpenString => LexFault::OpenString(place),
        Refusal::EmptyString => LexFault::EmptyString(place),
        Refusal::LargeNumber => LexFault::LargeNumber(place),
        Refusal::TouchingLetter => LexFault::TouchingLetter(place),
        Refusal::StringByte { offset } => LexFault::StringByte(place.after(&rest[..offset])),
    }
}
