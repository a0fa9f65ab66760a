ghost use Rattle.reading.specs.Declarations.{group};
ghost use Rattle.reading.specs.Trees.{group_outline};

use crate::denoter::denoter;
use crate::lists::Item;
use crate::names::field_names;
use lexer::token::{Kind, Symbol};
use syntax_tree::VariableGroup;
use token_cursor::{Cursor, Read};

/// Variables that are declared together (6.5.1).
/// `variable-declaration = names type-denoter ";" .`
impl<'a> Item<'a> for VariableGroup<'a> {
    ghost look = { group_outline };

    ghost rule = { group };

    #[tactic(auto, unfolding(reading::specs::Declarations::group))]
    fn read(cursor: &mut Cursor<'_, 'a>, levels: u32) -> Read<Self> {
        let names = field_names(cursor)?;
        let denoter = denoter(cursor, levels);
        let denoter = cursor.followed_by(denoter, Kind::Symbol(Symbol::Semicolon))?;
        Ok(VariableGroup { names, denoter })
    }
}
