use lexer::token::{Kind, Symbol, Token, Word};
use parser::parse;
use place::Place;
use std::alloc::{AllocError, Global};
use std::test::Fail;
use test_words::texts::next_random;
use token_cursor::fault::ParseFault;

const PLACE: Place = Place {
    line: 0,
    column: u32::MAX,
};

/// What random lists are made of; a list with the word nil is left out.
const KINDS: [Kind; 32] = [
    Kind::Word(Word::Program),
    Kind::Word(Word::Begin),
    Kind::Word(Word::Not),
    Kind::Word(Word::End),
    Kind::Word(Word::Var),
    Kind::Word(Word::Nil),
    Kind::Identifier,
    Kind::Symbol(Symbol::Times),
    Kind::Number(u32::MAX),
    Kind::Text,
    Kind::Symbol(Symbol::Semicolon),
    Kind::Symbol(Symbol::Becomes),
    Kind::Symbol(Symbol::OpenParenthesis),
    Kind::Symbol(Symbol::CloseParenthesis),
    Kind::Symbol(Symbol::Plus),
    Kind::Symbol(Symbol::Colon),
    Kind::Symbol(Symbol::OpenBracket),
    Kind::Symbol(Symbol::CloseBracket),
    Kind::Symbol(Symbol::Comma),
    Kind::Symbol(Symbol::Period),
    Kind::Symbol(Symbol::Equal),
    Kind::Symbol(Symbol::Range),
    Kind::Word(Word::If),
    Kind::Word(Word::Then),
    Kind::Word(Word::Else),
    Kind::Word(Word::While),
    Kind::Word(Word::Do),
    Kind::Word(Word::Repeat),
    Kind::Word(Word::Until),
    Kind::Word(Word::For),
    Kind::Word(Word::Case),
    Kind::Word(Word::Of),
];

fn token(kind: Kind, text: &'static [u8]) -> Token<'static> {
    Token {
        kind,
        text,
        place: PLACE,
    }
}

/// How a program begins.
const BEGINNING: [Kind; 4] = [
    Kind::Word(Word::Program),
    Kind::Identifier,
    Kind::Symbol(Symbol::Semicolon),
    Kind::Word(Word::Begin),
];

/// How a program begins, as far as the seed says.
fn beginning(alloc: Global, seed: u64) -> Result<Vec<Token<'static>>, AllocError> {
    let mut list = Vec::new(alloc);
    for kind in &BEGINNING[..((seed >> 60) as usize).min(4)] {
        list.push(token(*kind, b"a"))?;
    }
    Ok(list)
}

fn has_nil(list: &[Token<'_>]) -> bool {
    for token in list {
        if matches!(token.kind, Kind::Word(Word::Nil)) {
            return true;
        }
    }
    false
}

/// Whether a list is left out, at the place of its tokens, exactly where it has the word nil.
fn is_left_out_for_nil(alloc: Global, list: &[Token<'_>]) -> bool {
    match parse(alloc, list).err() {
        Some(fault) => is_left_out(&fault) == has_nil(list),
        None => !has_nil(list),
    }
}

fn is_left_out(fault: &ParseFault) -> bool {
    match fault.place() {
        Some(place) => fault.number() == 3 && place.line == 0 && place.column == u32::MAX,
        None => false,
    }
}

fn random_list(alloc: Global, seed: &mut u64) -> Result<Vec<Token<'static>>, AllocError> {
    let mut list = beginning(alloc, *seed)?;
    for _ in 0..*seed >> 58 {
        *seed = next_random(*seed);
        list.push(token(KINDS[(*seed >> 59) as usize], b""))?;
    }
    Ok(list)
}

#[test]
fn answers_any_list(rt: HostRuntime) -> Result<(), Fail> {
    let alloc = rt.alloc();
    let mut seed = 1;
    for _ in 0..1000 {
        let list = random_list(alloc, &mut seed)?;
        seed = next_random(seed);
        assert!(rt; is_left_out_for_nil(alloc, &list));
    }
    Ok(())
}

#[test]
fn the_laws_are_called(_rt: HostRuntime) -> Result<(), Fail> {
    reading::laws::read_is_spelled();
    reading::laws::spelled_is_read();
    reading::laws::tokens_have_one_tree();
    Ok(())
}
