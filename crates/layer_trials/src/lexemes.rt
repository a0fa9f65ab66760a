use lexer::tokens;
use std::alloc::{AllocError, Global};
use std::test::Fail;
use test_words::rows::all_hold;

/// The number of the fault of a text; none where it has tokens.
fn number_of(alloc: Global, text: &[u8]) -> Option<u8> {
    Some(tokens(alloc, text).err()?.number())
}

/// The number of the fault of each of sixteen bytes alone, or 0.
fn bytes_told(alloc: Global, sixteenth: &u8) -> Result<String, AllocError> {
    let mut told = String::new(alloc);
    for low in 0..16u8 {
        let byte = sixteenth.wrapping_mul(16).wrapping_add(low);
        let number = number_of(alloc, &[byte]).unwrap_or(0);
        told.push(char::from(b'0'.wrapping_add(number)))?;
    }
    Ok(told)
}

/// The bytes by their upper half: signs, digits, letters and blanks begin a token or stand between tokens.
static BYTES: [(u8, &str); 16] = [
    (0, "1111111110011011"),
    (1, "1111111111111111"),
    (2, "0111111300000000"),
    (3, "0000000000000001"),
    (4, "0000000000000000"),
    (5, "0000000000001001"),
    (6, "1000000000000000"),
    (7, "0000000000021111"),
    (8, "1111111111111111"),
    (9, "1111111111111111"),
    (10, "1111111111111111"),
    (11, "1111111111111111"),
    (12, "1111111111111111"),
    (13, "1111111111111111"),
    (14, "1111111111111111"),
    (15, "1111111111111111"),
];

#[test]
fn answers_any_byte(rt: HostRuntime) -> Result<(), Fail> {
    all_hold(rt.alloc(), &BYTES, bytes_told)
}
