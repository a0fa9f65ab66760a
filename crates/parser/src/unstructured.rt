ghost use Rattle.std.specs.Prelude.{◌≡◌};
ghost use Rattle.std.specs.Option.{option_map};
ghost use Rattle.reading.specs.Declarations.{enumerated, name_or_subrange, name_of};
ghost use Rattle.reading.specs.Lexemes.{identifier};
ghost use Rattle.reading.specs.Trees.{constant_outline, denoter_outline};
ghost use Rattle.token_cursor.specs.Cursor.{Makes};

use crate::constants::constant;
use crate::lists::enclosed;
use lexer::token::Symbol;
use reading::refusal::Refusal;
use syntax_tree::{Constant, ConstantValue, Name, TypeDenoter};
use token_cursor::{Cursor, Read};

/// An enumerated type (6.4.2.3).
/// `enumerated-type = "(" identifier { "," identifier } ")" .`
#[tactic(auto, using(crate::proofs::Denoters::enumerations), unfolding(reading::specs::Declarations::enumerated))]
pub(crate) fn enumerated<'a>(cursor: &mut Cursor<'_, 'a>) -> Read<TypeDenoter<'a>>
    ensures { Makes denoter_outline (enumerated cursor.old.rest.now) result cursor.new }
{
    cursor.expect_symbol(Symbol::OpenParenthesis)?;
    let constants = enclosed(cursor, Symbol::Comma, Symbol::CloseParenthesis)?;
    Ok(TypeDenoter::Enumerated { constants })
}

/// A name, or a subrange type (6.4.2.4): a name is one alone, another constant only before `..`.
/// `name-or-subrange = identifier | constant ".." constant .`
#[tactic(auto, using(crate::proofs::Denoters::subranges), unfolding(reading::specs::Declarations::name_or_subrange))]
pub(crate) fn name_or_subrange<'a>(cursor: &mut Cursor<'_, 'a>) -> Read<TypeDenoter<'a>>
    ensures { Makes denoter_outline (name_or_subrange cursor.old.rest.now) result cursor.new }
{
    let first = constant(cursor)?;
    let Some(between) = cursor.take_symbol(Symbol::Range) else {
        let name = name_of(&first).ok_or(Refusal::NoProgram)?;
        return Ok(TypeDenoter::Name(name));
    };
    let last = constant(cursor)?;
    Ok(TypeDenoter::Subrange {
        first,
        between,
        last,
    })
}

/// The name that a constant is, where it is one without a sign.
fn name_of<'a>(constant: &Constant<'a>) -> Option<Name<'a>>
    ensures { option_map identifier result ≡ name_of (constant_outline constant.now).spelling }
{
    match constant {
        Constant {
            sign: None,
            value: ConstantValue::Name(name),
        } => Some(*name),
        _ => None,
    }
}
