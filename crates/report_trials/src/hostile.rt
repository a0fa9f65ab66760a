use crate::numbers::Numbers;
use crate::pieces::Text;
use crate::shown::refusal;
use std::alloc::{AllocError, Global};
use std::test::Fail;

const PIECES: [&str; 63] = [
    "program ", "p", "(output)", ";", " var ", "x", "y", ",", ": ", "integer", " begin ", " end",
    ".", ":=", "writeln", "(", ")", "+", "-", "1", "maxint", "'a'", "{ }", " := ", "goto ", "(*",
    "^", "read(x)", "readln", "eof", "eoln", "(input)", "*", " div ", " mod ", " and ", " or ",
    " not ", "=", "<>", "<", ">=", "true", "write", "sqr(", ": 1", "Boolean", "odd", " if ",
    " then ", " else ", " while ", " do ", " repeat ", " until ", " for ", " to ", " case ",
    " of ", "'", "{", "*)", "_",
];

fn text_of_pieces(alloc: Global, numbers: &mut Numbers) -> Result<Vec<u8>, AllocError> {
    let mut text = Text::new(alloc);
    for _ in 0..numbers.below(30) {
        text.put(PIECES[numbers.below(63)]);
    }
    text.finish()
}

fn text_of_bytes(alloc: Global, numbers: &mut Numbers) -> Result<Vec<u8>, AllocError> {
    let mut text = Text::new(alloc);
    for _ in 0..numbers.below(40) {
        text.put_byte(numbers.below(256) as u8);
    }
    text.finish()
}

// Whether a text compiles. Fails where it is neither compiled nor refused.
fn is_taken(alloc: Global, text: &[u8]) -> Result<bool, Fail> {
    Ok(refusal(alloc, text, None)?.is_empty())
}

// How many of 2,000 texts of pieces compile; as many texts of bytes are tried.
fn random_texts_taken(alloc: Global) -> Result<u32, Fail> {
    let mut numbers = Numbers { state: 1983 };
    let mut taken = 0u32;
    for _ in 0..2_000 {
        is_taken(alloc, &text_of_bytes(alloc, &mut numbers)?)?;
        if is_taken(alloc, &text_of_pieces(alloc, &mut numbers)?)? {
            taken = taken.saturating_add(1);
        }
    }
    Ok(taken)
}

#[test]
fn any_text_is_answered(rt: HostRuntime) -> Result<(), Fail> {
    // Nearly all of them are refused.
    assert!(rt; random_texts_taken(rt.alloc())? < 100);
    for byte in 0..=255u8 {
        assert!(rt; !is_taken(rt.alloc(), &[byte])?);
    }
    Ok(())
}
