ghost use Rattle.std.specs.Prelude.{◌≡◌};
ghost use Rattle.std.specs.Result.{result_map_both};
ghost use Rattle.certificate.specs.Words as spec;

use text_lines::numerals::{is_number, natural};

/// Why a line says nothing.
#[derive(Clone, Copy)]
pub(crate) enum LineFault {
    NotInGrammar,
    OutOfRange,
}

/// What words tell, or why they say nothing.
pub(crate) type Told<T> = Result<T, LineFault>;

/// The greatest number of a block, a loop or a variable.
const MOST: u32 = 999_999;

/// The greatest magnitude of other numbers.
const MAXINT: u32 = 2_147_483_647;

/// Two parts of a line: it is not in the grammar before a number of it is out of range.
pub(crate) fn both<A: Copy, B: Copy>(first: Told<A>, second: Told<B>) -> Told<(A, B)>
    ensures { result ≡ spec.both first second }
{
    match (first, second) {
        (Ok(first), Ok(second)) => Ok((first, second)),
        (Err(LineFault::NotInGrammar), _) | (_, Err(LineFault::NotInGrammar)) => {
            Err(LineFault::NotInGrammar)
        }
        (Err(LineFault::OutOfRange), _) | (_, Err(LineFault::OutOfRange)) => {
            Err(LineFault::OutOfRange)
        }
    }
}

/// What stands before the first blank, and what stands behind it.
pub(crate) fn parted(words: &[u8]) -> Told<(&[u8], &[u8])>
    ensures { result_map_both (λ parts. (parts.0.now, parts.1.now)) (λ fault. fault) result ≡ spec.parted words.now }
{
    text_lines::words::parted(words).ok_or(LineFault::NotInGrammar)
}

/// A variable: `v` and its root number.
pub(crate) fn variable_of(word: &[u8]) -> Told<u32>
    ensures { result ≡ spec.variable_of word.now }
{
    number_of(word.strip_prefix(b"v").ok_or(LineFault::NotInGrammar)?)
}

/// The number of a block, a loop or a variable.
pub(crate) fn number_of(word: &[u8]) -> Told<u32>
    ensures { result ≡ spec.number_of word.now }
{
    at_most(MOST, word)
}

/// A number with or without a minus, which 0 hasn't.
pub(crate) fn constant_of(word: &[u8]) -> Told<i32>
    ensures { result ≡ spec.constant_of word.now }
{
    match word.strip_prefix(b"-") {
        Some(digits) => negative_of(digits),
        None => positive_of(word),
    }
}

/// The number of a magnitude.
pub(crate) fn positive_of(digits: &[u8]) -> Told<i32>
    ensures { result ≡ spec.positive_of digits.now }
{
    Ok(at_most(MAXINT, digits)? as i32)
}

/// The negative of a magnitude, which isn't 0.
pub(crate) fn negative_of(digits: &[u8]) -> Told<i32>
    ensures { result ≡ spec.negative_of digits.now }
{
    match at_most(MAXINT, digits)? {
        0 => Err(LineFault::NotInGrammar),
        magnitude => Ok(-(magnitude as i32)),
    }
}

/// The same of a magnitude by which a bound lies below a variable: at least 1.
pub(crate) fn lowered_of(digits: &[u8]) -> Told<i32>
    ensures { result ≡ spec.lowered_of digits.now }
{
    match at_most(MAXINT, digits)? {
        0 => Err(LineFault::OutOfRange),
        magnitude => Ok(-(magnitude as i32)),
    }
}

/// The value of a number that is at most the limit.
fn at_most(limit: u32, word: &[u8]) -> Told<u32>
    ensures { result ≡ spec.at_most limit word.now }
{
    natural(limit, word).ok_or_else(|| number_fault(word))
}

/// Why a word isn't a number up to a limit.
fn number_fault(word: &[u8]) -> LineFault
    ensures { result ≡ spec.number_fault word.now }
{
    if is_number(word) {
        LineFault::OutOfRange
    } else {
        LineFault::NotInGrammar
    }
}
