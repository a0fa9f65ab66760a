ghost use Rattle.std.specs.Prelude.{map};
ghost use Rattle.reading.specs.Declarations as spec;
ghost use Rattle.reading.specs.Declarations.{field_names};
ghost use Rattle.reading.specs.Trees.{name_outline};
ghost use Rattle.token_cursor.specs.Cursor.{Makes};

use crate::lists::{Part, enclosed};
use lexer::token::Symbol;
use syntax_tree::Name;
use token_cursor::{Cursor, Read};

impl<'a> Part<'a> for Name<'a> {
    ghost look = { name_outline };

    ghost rule = { spec.name };

    #[tactic(auto, unfolding(reading::specs::Declarations::name))]
    fn read(cursor: &mut Cursor<'_, 'a>) -> Read<Self> {
        cursor.expect_name()
    }
}

/// The names of fields, variables or formal parameters that are declared together (6.4.3.3, 6.5.1, 6.6.3.1), and their
/// colon.
/// `names = identifier { "," identifier } ":" .`
#[tactic(auto, using(crate::proofs::Parts::lists_of_names), unfolding(reading::specs::Declarations::field_names))]
pub(crate) fn field_names<'a>(cursor: &mut Cursor<'_, 'a>) -> Read<Vec<Name<'a>>>
    ensures { Makes (λ found. map name_outline found.items) (field_names cursor.old.rest.now) result cursor.new }
{
    enclosed(cursor, Symbol::Comma, Symbol::Colon)
}
