ghost use Rattle.std.specs.Prelude.{◌≡◌, ◌≤◌, IfSome, IsTrue, length};
ghost use Rattle.std.specs.List.{list_all};
ghost use Rattle.text_lines.specs.Numerals.{natural};
ghost use Rattle.pcode_assembler.specs.Words as spec;
ghost use Rattle.pcode_assembler.specs.Words.{is_hexadecimal, nibble_of};

use crate::SetMembers;
use text_lines::numerals::natural;

/// The greatest number of 32 bits, and the magnitude of the least.
const MAXIMUM: u32 = 2_147_483_647;

const MINIMUM_MAGNITUDE: u32 = 2_147_483_648;

/// The hexadecimal digits of a set.
const SET_DIGITS: usize = 32;

/// The number that a word spells, if it is at least 1 and at most the limit.
pub(crate) fn positive(limit: u32, word: &[u8]) -> Option<u32>
    ensures read { result ≡ spec.positive limit word.now }
    ensures within { IfSome result (λ number. number ≤ limit) }
{
    match natural(limit, word) {
        None | Some(0) => None,
        Some(number) => Some(number),
    }
}

/// The number from 0 to the limit that a word spells, in a byte.
pub(crate) fn small(limit: u8, word: &[u8]) -> Option<u8>
    ensures { result ≡ natural limit word.now }
{
    Some(natural(u32::from(limit), word)? as u8)
}

/// A number of 32 bits, with a minus if it is negative.
pub(crate) fn number(word: &[u8]) -> Option<i32>
    ensures { result ≡ spec.number word.now }
{
    match word.strip_prefix(b"-") {
        Some(digits) => negated(digits),
        None => magnitude(word),
    }
}

/// The number of digits.
fn magnitude(digits: &[u8]) -> Option<i32>
    ensures { result ≡ spec.magnitude digits.now }
{
    Some(natural(MAXIMUM, digits)? as i32)
}

/// The negative of digits, which 0 hasn't.
fn negated(digits: &[u8]) -> Option<i32>
    ensures { result ≡ spec.negated digits.now }
{
    match natural(MINIMUM_MAGNITUDE, digits) {
        None | Some(0) => None,
        Some(magnitude) => Some(-i64::from(magnitude) as i32),
    }
}

/// The members of a set that hexadecimal digits spell, the first for members 127 to 124.
pub(crate) fn members(word: &[u8]) -> Option<SetMembers>
    ensures { result ≡ spec.members word.now }
{
    if word.len() != SET_DIGITS || !are_hexadecimal(word) {
        return None;
    }
    Some(SetMembers::of(hexadecimal_value(word)))
}

fn are_hexadecimal(word: &[u8]) -> bool
    ensures { result ≡ list_all is_hexadecimal word.now }
{
    word.iter().all(|digit| is_hexadecimal(*digit))
}

fn is_hexadecimal(digit: u8) -> bool
    ensures { result ≡ is_hexadecimal digit }
{
    matches!(digit, b'0'..=b'9' | b'a'..=b'f')
}

fn hexadecimal_value(digits: &[u8]) -> u128
    requires count { length digits.now ≡ 32 }
    requires digits { IsTrue (list_all is_hexadecimal digits.now) }
    ensures { result ≡ spec.hexadecimal_value digits.now }
{
    let mut value = 0;
    for digit in digits {
        value = value * 16 + u128::from(nibble_of(*digit));
    }
    value
}

/// The value of a hexadecimal digit.
fn nibble_of(digit: u8) -> u8
    requires { IsTrue (is_hexadecimal digit) }
    ensures { result ≡ nibble_of digit }
{
    if digit < b'a' {
        digit - b'0'
    } else {
        digit - b'a' + 10
    }
}
