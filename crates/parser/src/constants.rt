ghost use Rattle.std.specs.Prelude.{◌≡◌, map, Ok};
ghost use Rattle.reading.specs.Declarations.{definition};
ghost use Rattle.reading.specs.Statements as spec;
ghost use Rattle.reading.specs.Trees.{constant_outline, definition_outline, sign_outline};
ghost use Rattle.token_cursor.specs.Cursor.{Makes};
ghost use Rattle.parser.specs.Built.{constants_outlines};
ghost use Rattle.parser.specs.Constants.{signed};

use crate::lists::{Item, Part, enclosed};
use lexer::token::{Kind, Symbol};
use syntax_tree::{Constant, ConstantDefinition, ConstantValue, SignAt};
use token_cursor::{Cursor, Read};

/// The definition of a constant (6.3).
/// `constant-definition = identifier "=" constant ";" .`
impl<'a> Item<'a> for ConstantDefinition<'a> {
    ghost look = { definition_outline };

    ghost rule = { λ levels. definition };

    #[tactic(auto, unfolding(reading::specs::Declarations::definition))]
    fn read(cursor: &mut Cursor<'_, 'a>, _levels: u32) -> Read<Self> {
        let name = cursor.expect_name();
        let name = cursor.followed_by(name, Kind::Symbol(Symbol::Equal))?;
        let value = constant(cursor);
        let value = cursor.followed_by(value, Kind::Symbol(Symbol::Semicolon))?;
        Ok(ConstantDefinition { name, value })
    }
}

impl<'a> Part<'a> for Constant<'a> {
    ghost look = { constant_outline };

    ghost rule = { spec.constant };

    fn read(cursor: &mut Cursor<'_, 'a>) -> Read<Self> {
        constant(cursor)
    }
}

/// The constants before an arm of a case (6.8.3.5), and their colon.
/// `case-constants = constant { "," constant } ":" .`
#[tactic(auto, using(crate::proofs::Parts::constant_leaves), unfolding(reading::specs::Statements::row))]
pub(crate) fn row<'a>(cursor: &mut Cursor<'_, 'a>) -> Read<Vec<Constant<'a>>>
    ensures { Makes constants_outlines (spec.row cursor.old.rest.now) result cursor.new }
{
    enclosed(cursor, Symbol::Comma, Symbol::Colon)
}

/// A constant (6.3): a string, or a number or a name with a sign or none.
/// `constant = character-string | [ sign ] unsigned-constant .`
#[tactic(auto, unfolding(reading::specs::Statements::constant))]
pub(crate) fn constant<'a>(cursor: &mut Cursor<'_, 'a>) -> Read<Constant<'a>>
    ensures { Makes constant_outline (spec.constant cursor.old.rest.now) result cursor.new }
{
    if let Some((text, place)) = cursor.take_string() {
        return Ok(Constant {
            sign: None,
            value: ConstantValue::String { text, place },
        });
    }
    let sign = sign(cursor);
    signed(cursor, sign)
}

/// The sign that comes next, if one does.
/// `sign = "+" | "-" .`
#[tactic(auto, unfolding(reading::specs::Statements::sign))]
fn sign(cursor: &mut Cursor<'_, '_>) -> Option<SignAt>
    ensures { spec.sign cursor.old.rest.now ≡ Ok (sign_outline result, cursor.new.rest.now) }
{
    let (sign, place) = cursor.take_sign()?;
    Some(SignAt { sign, place })
}

/// A number or a name behind this sign.
/// `unsigned-constant = unsigned-integer | identifier .`
#[tactic(auto, unfolding(reading::specs::Statements::value))]
fn signed<'a>(cursor: &mut Cursor<'_, 'a>, sign: Option<SignAt>) -> Read<Constant<'a>>
    ensures { Makes constant_outline (signed (sign_outline sign) cursor.old.rest.now) result cursor.new }
{
    if let Some((value, place)) = cursor.take_number() {
        return Ok(Constant {
            sign,
            value: ConstantValue::Number { value, place },
        });
    }
    let name = cursor.expect_name()?;
    Ok(Constant {
        sign,
        value: ConstantValue::Name(name),
    })
}
