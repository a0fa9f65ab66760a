ghost use Rattle.std.specs.Prelude.{◌≡◌, ◌∷◌, []};
ghost use Rattle.lexer.specs.Spelling.{symbol_of, symbol_at};

use crate::token::Symbol;

/// The symbol that a text begins with, as long as can be, and its length (6.1.2, 6.1.9).
pub fn symbol(text: &[u8]) -> Option<(Symbol, usize)>
    ensures { result ≡ symbol_at text.now }
{
    if let [first, second, ..] = text {
        if let Some(symbol) = double_symbol(*first, *second) {
            return Some((symbol, 2));
        }
    }
    let [first, ..] = text else {
        return None;
    };
    let symbol = single_symbol(*first)?;
    Some((symbol, 1))
}

/// The symbol of two bytes.
#[tactic(auto, unfolding(crate::specs::Spelling::symbol_of))]
fn double_symbol(first: u8, second: u8) -> Option<Symbol>
    ensures { result ≡ symbol_of (first ∷ second ∷ []) }
{
    let symbol = match (first, second) {
        (b'<', b'>') => Symbol::NotEqual,
        (b'<', b'=') => Symbol::LessOrEqual,
        (b'>', b'=') => Symbol::GreaterOrEqual,
        (b':', b'=') => Symbol::Becomes,
        (b'.', b'.') => Symbol::Range,
        (b'(', b'.') => Symbol::OpenBracket,
        (b'.', b')') => Symbol::CloseBracket,
        _ => return None,
    };
    Some(symbol)
}

/// The symbol of one byte.
#[tactic(auto, unfolding(crate::specs::Spelling::symbol_of))]
fn single_symbol(byte: u8) -> Option<Symbol>
    ensures { result ≡ symbol_of (byte ∷ []) }
{
    let symbol = match byte {
        b'+' => Symbol::Plus,
        b'-' => Symbol::Minus,
        b'*' => Symbol::Times,
        b'/' => Symbol::Slash,
        b'=' => Symbol::Equal,
        b'<' => Symbol::Less,
        b'>' => Symbol::Greater,
        b'[' => Symbol::OpenBracket,
        b']' => Symbol::CloseBracket,
        b'.' => Symbol::Period,
        b',' => Symbol::Comma,
        b':' => Symbol::Colon,
        b';' => Symbol::Semicolon,
        b'(' => Symbol::OpenParenthesis,
        b')' => Symbol::CloseParenthesis,
        b'^' | b'@' => Symbol::Arrow,
        _ => return None,
    };
    Some(symbol)
}
