ghost use Rattle.std.specs.Prelude.{◌≡◌, ◌<◌, ◌≤◌, true, length, slice_index, take_while, IfSome, MatchOption, All};
ghost use Rattle.std.specs.Char.{IsAsciiDigit, is_ascii_alphabetic, is_ascii_digit, is_ascii_alphanumeric};
ghost use Rattle.lexer.specs.Piece as spec;
ghost use Rattle.lexer.specs.Piece.{piece_at};
ghost use Rattle.lexer.specs.Shape.{Opens, is_blank_byte};

use crate::symbol::symbol;
use crate::token::Kind;
use crate::word::word_of;

/// The greatest number (6.1.5), `maxint`.
const MAX_NUMBER: u64 = 2147483647;

/// What the rest of a text begins with.
#[derive(Clone, Copy)]
pub enum Piece {
    /// A blank, a line end or a comment (6.1.8).
    Separator,
    Token(Kind),
}

/// Why nothing can be cut off the rest of a text. Each fault stands where the rest begins, save
/// `StringByte`.
#[derive(Clone, Copy)]
pub enum Refusal {
    UnknownByte,
    OpenComment,
    OpenString,
    EmptyString,
    LargeNumber,
    TouchingLetter,
    StringByte { offset: usize },
}

/// What a text begins with, and its length. An empty text, of which `tokens` never asks, is refused.
pub fn next_piece(text: &[u8]) -> Result<(Piece, usize), Refusal>
    ensures { result ≡ piece_at text.now }
{
    if text.is_empty() {
        return Err(Refusal::UnknownByte);
    }
    let first = text[0];
    if is_blank(first) {
        return Ok((Piece::Separator, 1));
    }
    if text.starts_with(b"{") {
        return comment(text, 1);
    }
    if text.starts_with(b"(*") {
        return comment(text, 2);
    }
    if first == b'\'' {
        return string(text);
    }
    if first.is_ascii_digit() {
        return number(text);
    }
    if first.is_ascii_alphabetic() {
        return Ok(name(text));
    }
    match symbol(text) {
        Some((symbol, length)) => Ok((Piece::Token(Kind::Symbol(symbol)), length)),
        None => Err(Refusal::UnknownByte),
    }
}

/// A blank or a line end (6.1.8).
fn is_blank(byte: u8) -> bool
    ensures { result ≡ is_blank_byte byte }
{
    matches!(byte, b'\t' | b'\n' | b'\r' | b' ')
}

/// A comment whose opening mark takes `opening` bytes. Each closing mark closes either opening
/// mark.
fn comment(text: &[u8], opening: usize) -> Result<(Piece, usize), Refusal>
    requires { Opens text.now opening }
    ensures { result ≡ piece_at text.now }
{
    for at in opening..text.len() {
        let rest = &text[at..];
        if rest.starts_with(b"}") {
            return Ok((Piece::Separator, at + 1));
        }
        if rest.starts_with(b"*)") {
            return Ok((Piece::Separator, at + 2));
        }
    }
    Err(Refusal::OpenComment)
}

/// A character string, at its first apostrophe (6.1.7).
fn string(text: &[u8]) -> Result<(Piece, usize), Refusal>
    requires { slice_index text.now 0 ≡ 39 }
    ensures { result ≡ piece_at text.now }
{
    let Some(length) = string_length(text) else {
        return Err(Refusal::OpenString);
    };
    if length == 2 {
        return Err(Refusal::EmptyString);
    }
    match bad_byte(&text[..length]) {
        Some(offset) => Err(Refusal::StringByte { offset }),
        None => Ok((Piece::Token(Kind::Text), length)),
    }
}

/// Where the first byte stands that no string may have.
fn bad_byte(string: &[u8]) -> Option<usize>
    ensures { result ≡ spec.bad_byte string.now }
{
    string.iter().position(|byte| !matches!(*byte, 32..=126))
}

/// The length up to the apostrophe that closes a string in its line: the first that isn't one of
/// two.
fn string_length(text: &[u8]) -> Option<usize>
    requires { slice_index text.now 0 ≡ 39 }
    ensures exact { spec.string_piece text.now result ≡ piece_at text.now }
    ensures within { IfSome result (λ length_of. length_of ≤ length text.now) }
{
    let mut at = 1;
    while at < text.len() {
        let rest = &text[at..];
        if rest.starts_with(b"''") {
            at += 2;
        } else if rest.starts_with(b"'") {
            return Some(at + 1);
        } else if rest.starts_with(b"\n") {
            return None;
        } else {
            at += 1;
        }
    }
    None
}

/// A number, at its first digit (6.1.5). Too large a value is told before a letter behind it.
fn number(text: &[u8]) -> Result<(Piece, usize), Refusal>
    requires { is_ascii_digit (slice_index text.now 0) ≡ true }
    ensures { result ≡ piece_at text.now }
{
    let length = digits_length(text);
    let Some(value) = value_of(&text[..length]) else {
        return Err(Refusal::LargeNumber);
    };
    if length < text.len() && text[length].is_ascii_alphabetic() {
        return Err(Refusal::TouchingLetter);
    }
    Ok((Piece::Token(Kind::Number(value)), length))
}

/// How many digits a text begins with.
fn digits_length(text: &[u8]) -> usize
    ensures { result ≡ length (take_while is_ascii_digit text.now) }
{
    text.iter().take_while(|byte| byte.is_ascii_digit()).count()
}

/// The value of digits, if it is at most `MAX_NUMBER`.
fn value_of(digits: &[u8]) -> Option<u32>
    requires { All IsAsciiDigit digits.now }
    ensures { MatchOption result (MAX_NUMBER < spec.value_of digits.now)
        (λ value. (value ≡ spec.value_of digits.now) × (value ≤ MAX_NUMBER)) }
{
    let mut value = 0;
    for digit in digits {
        value = value * 10 + u64::from(*digit - b'0');
        if value > MAX_NUMBER {
            return None;
        }
    }
    Some(value as u32)
}

/// A word symbol or an identifier, at its first letter (6.1.2, 6.1.3).
fn name(text: &[u8]) -> (Piece, usize)
    requires { is_ascii_alphabetic (slice_index text.now 0) ≡ true }
    ensures { piece_at text.now ≡ Ok result }
{
    let length = name_length(text);
    (Piece::Token(kind_of(&text[..length])), length)
}

/// The class of a name's letters and digits.
fn kind_of(letters: &[u8]) -> Kind
    ensures { result ≡ spec.kind_of letters.now }
{
    word_of(letters).map_or(Kind::Identifier, Kind::Word)
}

/// How many letters and digits a text begins with.
fn name_length(text: &[u8]) -> usize
    ensures { result ≡ length (take_while is_ascii_alphanumeric text.now) }
{
    text.iter()
        .take_while(|byte| byte.is_ascii_alphanumeric())
        .count()
}
