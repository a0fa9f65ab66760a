ghost use Rattle.std.specs.Prelude.{◌≡◌};
ghost use Rattle.token_cursor.specs.LeftOut.{first_left_out, is_left_out};

use lexer::token::{Kind, Symbol, Token, Word};
use place::Place;

/// The place of the first token that only forms left out have.
pub fn first_left_out(tokens: &[Token<'_>]) -> Option<Place>
    ensures { result ≡ first_left_out tokens.now }
{
    for token in tokens {
        if is_left_out(token.kind) {
            return Some(token.place);
        }
    }
    None
}

/// Whether a token is label, goto, nil, file or `^`.
fn is_left_out(kind: Kind) -> bool
    ensures { result ≡ is_left_out kind }
{
    matches!(
        kind,
        Kind::Word(Word::Label | Word::Goto | Word::Nil | Word::File) | Kind::Symbol(Symbol::Arrow)
    )
}
