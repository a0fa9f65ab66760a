ghost use Rattle.std.specs.Prelude.{◌≡◌, map};
ghost use Rattle.reading.specs.Declarations as spec;
ghost use Rattle.reading.specs.Lexemes.{identifier};
ghost use Rattle.reading.specs.Trees.{formal_outline, heading_outline, takes_directive};
ghost use Rattle.token_cursor.specs.Cursor.{Makes};
ghost use Rattle.parser.specs.Headings.{headed};

use crate::formals::formals;
use lexer::token::{Kind, Symbol, Word};
use syntax_tree::{FormalGroup, Heading, Name};
use token_cursor::{Cursor, Read};

/// The heading of a procedure (6.6.1) or of a function (6.6.2), with its semicolon.
/// `heading = procedure-heading | function-heading .`
#[tactic(auto, unfolding(reading::specs::Declarations::heading))]
pub(crate) fn heading<'a>(cursor: &mut Cursor<'_, 'a>) -> Read<Heading<'a>>
    ensures { Makes headed (spec.heading cursor.old.rest.now) result cursor.new }
{
    match cursor.peek() {
        Some(Kind::Word(Word::Procedure)) => procedure(cursor),
        _ => function(cursor),
    }
}

/// `procedure-heading = "procedure" identifier formal-parameters ";" .`
#[tactic(auto, unfolding(reading::specs::Declarations::procedure))]
fn procedure<'a>(cursor: &mut Cursor<'_, 'a>) -> Read<Heading<'a>>
    ensures { Makes headed (spec.procedure cursor.old.rest.now) result cursor.new }
{
    cursor.expect_word(Word::Procedure)?;
    let name = cursor.expect_name()?;
    let formals = formals(cursor);
    let formals = cursor.followed_by(formals, Kind::Symbol(Symbol::Semicolon))?;
    Ok(Heading::Procedure { name, formals })
}

/// `function-heading = "function" identifier ( ";" | signature ) .`
#[tactic(auto, unfolding(reading::specs::Declarations::function))]
fn function<'a>(cursor: &mut Cursor<'_, 'a>) -> Read<Heading<'a>>
    ensures { Makes headed (spec.function cursor.old.rest.now) result cursor.new }
{
    cursor.expect_word(Word::Function)?;
    let name = cursor.expect_name()?;
    if let Some(_) = cursor.take_symbol(Symbol::Semicolon) {
        return Ok(Heading::Resumed { name });
    }
    let (formals, result) = signature(cursor)?;
    Ok(Heading::Function {
        name,
        formals,
        result,
    })
}

/// The formal parameters of a function, and the name of its result's type.
/// `signature = formal-parameters ":" identifier ";" .`
#[tactic(auto, unfolding(reading::specs::Declarations::signature))]
fn signature<'a>(cursor: &mut Cursor<'_, 'a>) -> Read<(Vec<FormalGroup<'a>>, Name<'a>)>
    ensures { Makes (λ found. (map formal_outline found.0.items, identifier found.1))
        (spec.signature cursor.old.rest.now) result cursor.new }
{
    let formals = formals(cursor);
    let formals = cursor.followed_by(formals, Kind::Symbol(Symbol::Colon))?;
    let result = cursor.expect_name();
    let result = cursor.followed_by(result, Kind::Symbol(Symbol::Semicolon))?;
    Ok((formals, result))
}

/// Whether `forward` may stand behind a heading: a later declaration of a function has a block.
pub(crate) fn takes_directive(heading: &Heading<'_>) -> bool
    ensures { result ≡ takes_directive heading.now }
{
    match heading {
        Heading::Procedure { .. } | Heading::Function { .. } => true,
        Heading::Resumed { .. } => false,
    }
}
