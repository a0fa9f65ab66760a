ghost use Rattle.std.specs.Prelude.{map};
ghost use Rattle.reading.specs.Declarations as spec;
ghost use Rattle.reading.specs.Reading.{separated};
ghost use Rattle.reading.specs.Statements.{parts_to_end};
ghost use Rattle.reading.specs.Trees.{denoter_outline};
ghost use Rattle.token_cursor.specs.Cursor.{Makes};
ghost use Rattle.parser.specs.Denoters.{array_type, record_type, set_type};
ghost use Rattle.token_cursor.specs.Rows.{MakesRows};
ghost use Rattle.parser.specs.Fields.{fields_look};

use crate::beside::made_beside;
use crate::lists::behind_arm;
use crate::names::field_names;
use crate::unstructured::{enumerated, name_or_subrange};
use lexer::token::{Kind, Symbol, Word};
use syntax_tree::{Name, TypeDenoter};
use token_cursor::{Cursor, Read, boxed, inside, put};

/// A type denoter (6.4.1) in something below which `levels` levels are left.
/// `type-denoter = enumerated-type | structured-type | name-or-subrange .`
#[cycle(denoter)]
pub(crate) fn denoter<'a>(cursor: &mut Cursor<'_, 'a>, levels: u32) -> Read<TypeDenoter<'a>>
    ensures { Makes denoter_outline (spec.denoter levels cursor.old.rest.now) result cursor.new }
{
    let levels = inside(levels, cursor.place())?;
    match cursor.peek() {
        Some(Kind::Symbol(Symbol::OpenParenthesis)) => enumerated(cursor),
        // No other denoter begins with a word symbol.
        Some(Kind::Word(_)) => structured(cursor, levels),
        _ => name_or_subrange(cursor),
    }
}

/// A structured type (6.4.3.1), below which `levels` levels are left.
/// `structured-type = [ "packed" ] ( array-type | set-type | record-type ) .`
#[cycle(denoter)]
#[tactic(auto, unfolding(reading::specs::Declarations::structured, reading::specs::Declarations::packed))]
fn structured<'a>(cursor: &mut Cursor<'_, 'a>, levels: u32) -> Read<TypeDenoter<'a>>
    ensures { Makes denoter_outline (spec.structured (spec.denoter levels) cursor.old.rest.now) result cursor.new }
{
    let packed = cursor.take_word(Word::Packed).is_some();
    match cursor.peek() {
        Some(Kind::Word(Word::Array)) => array(cursor, levels, packed),
        Some(Kind::Word(Word::Set)) => set(cursor, levels, packed),
        _ => record(cursor, levels, packed),
    }
}

/// An array type behind `packed` (6.4.3.2), below which `levels` levels are left.
/// `array-type = "array" "[" index-types "]" "of" component-type .`
#[cycle(denoter)]
#[tactic(auto, using(crate::proofs::Denoters::built_denoters), unfolding(reading::specs::Declarations::array))]
fn array<'a>(cursor: &mut Cursor<'_, 'a>, levels: u32, packed: bool) -> Read<TypeDenoter<'a>>
    ensures { Makes denoter_outline (array_type packed (spec.denoter levels) cursor.old.rest.now) result cursor.new }
{
    let place = cursor.expect_word(Word::Array);
    let place = cursor.followed_by(place, Kind::Symbol(Symbol::OpenBracket))?;
    let indexes = indexes(cursor, levels);
    let indexes = cursor.followed_by(indexes, Kind::Symbol(Symbol::CloseBracket));
    let indexes = cursor.followed_by(indexes, Kind::Word(Word::Of))?;
    let element = made_beside!(part(cursor, levels), indexes);
    Ok(TypeDenoter::Array {
        packed,
        place,
        indexes,
        element,
    })
}

/// The element type of an array, or the base type of a set.
/// `component-type = type-denoter .`
#[cycle(denoter)]
fn part<'a>(cursor: &mut Cursor<'_, 'a>, levels: u32) -> Read<Box<TypeDenoter<'a>>>
    ensures { Makes (λ part. denoter_outline part.value) (spec.denoter levels cursor.old.rest.now) result cursor.new }
{
    boxed(cursor.alloc, denoter(cursor, levels))
}

/// The index types of an array.
/// `index-types = type-denoter { "," type-denoter } .`
#[cycle(denoter)]
fn indexes<'a>(cursor: &mut Cursor<'_, 'a>, levels: u32) -> Read<Vec<TypeDenoter<'a>>>
    ensures { Makes (λ found. map denoter_outline found.items)
        (separated Symbol.Comma (spec.denoter levels) cursor.old.rest.now) result cursor.new }
{
    // Most arrays have one index type.
    let mut indexes = Vec::with_capacity(cursor.alloc, 1)?;
    loop {
        put(&mut indexes, denoter(cursor, levels))?;
        let Some(_) = cursor.take_symbol(Symbol::Comma) else {
            return Ok(indexes);
        };
    }
}

/// A set type behind `packed` (6.4.3.4), below which `levels` levels are left.
/// `set-type = "set" "of" component-type .`
#[cycle(denoter)]
#[tactic(auto, using(crate::proofs::Denoters::built_denoters), unfolding(reading::specs::Declarations::set_type))]
fn set<'a>(cursor: &mut Cursor<'_, 'a>, levels: u32, packed: bool) -> Read<TypeDenoter<'a>>
    ensures { Makes denoter_outline (set_type packed (spec.denoter levels) cursor.old.rest.now) result cursor.new }
{
    let place = cursor.expect_word(Word::Set);
    let place = cursor.followed_by(place, Kind::Word(Word::Of))?;
    let base = part(cursor, levels)?;
    Ok(TypeDenoter::Set {
        packed,
        place,
        base,
    })
}

/// A record type behind `packed` (6.4.3.3), below which `levels` levels are left.
/// `record-type = "record" ( "end" | fields ) .`
#[cycle(denoter)]
#[tactic(auto, using(crate::proofs::Denoters::built_denoters), unfolding(reading::specs::Declarations::record_type))]
fn record<'a>(cursor: &mut Cursor<'_, 'a>, levels: u32, packed: bool) -> Read<TypeDenoter<'a>>
    ensures { Makes denoter_outline (record_type packed (spec.denoter levels) cursor.old.rest.now) result cursor.new }
{
    let place = cursor.expect_word(Word::Record)?;
    if let Some(_) = cursor.take_word(Word::End) {
        return Ok(TypeDenoter::Record {
            packed,
            place,
            names: Vec::new(cursor.alloc),
            denoters: Vec::new(cursor.alloc),
            semicolon: false,
        });
    }
    let (names, denoters, semicolon) = fields(cursor, levels)?;
    Ok(TypeDenoter::Record {
        packed,
        place,
        names,
        denoters,
        semicolon,
    })
}

/// The rows of names of a record's fields, the denoter behind each, and whether a semicolon stands
/// before the `end`.
/// `fields = names type-denoter { ";" names type-denoter } [ ";" ] "end" .`
#[cycle(denoter)]
fn fields<'a>(
    cursor: &mut Cursor<'_, 'a>,
    levels: u32,
) -> Read<(Vec<Vec<Name<'a>>>, Vec<TypeDenoter<'a>>, bool)>
    ensures { MakesRows (λ names denoters semicolon. (fields_look names denoters, semicolon))
        (parts_to_end (spec.fields (spec.denoter levels)) cursor.old.rest.now) result cursor.new }
{
    let mut names = Vec::new(cursor.alloc);
    let mut denoters = Vec::new(cursor.alloc);
    loop {
        put(&mut names, field_names(cursor))?;
        put(&mut denoters, denoter(cursor, levels))?;
        if let Some(semicolon) = behind_arm(cursor)? {
            return Ok((names, denoters, semicolon));
        }
    }
}
