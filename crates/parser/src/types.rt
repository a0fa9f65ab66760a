ghost use Rattle.reading.specs.Declarations.{type_definition};
ghost use Rattle.reading.specs.Trees.{type_outline};

use crate::denoter::denoter;
use crate::lists::Item;
use lexer::token::{Kind, Symbol};
use syntax_tree::TypeDefinition;
use token_cursor::{Cursor, Read};

/// The definition of a type (6.4.1).
/// `type-definition = identifier "=" type-denoter ";" .`
impl<'a> Item<'a> for TypeDefinition<'a> {
    ghost look = { type_outline };

    ghost rule = { type_definition };

    #[tactic(auto, unfolding(reading::specs::Declarations::type_definition))]
    fn read(cursor: &mut Cursor<'_, 'a>, levels: u32) -> Read<Self> {
        let name = cursor.expect_name();
        let name = cursor.followed_by(name, Kind::Symbol(Symbol::Equal))?;
        let denoter = denoter(cursor, levels);
        let denoter = cursor.followed_by(denoter, Kind::Symbol(Symbol::Semicolon))?;
        Ok(TypeDefinition { name, denoter })
    }
}
