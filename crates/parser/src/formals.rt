ghost use Rattle.std.specs.Prelude.{map};
ghost use Rattle.reading.specs.Declarations as spec;
ghost use Rattle.reading.specs.Declarations.{formals};
ghost use Rattle.reading.specs.Trees.{formal_outline};
ghost use Rattle.token_cursor.specs.Cursor.{Makes};

use crate::lists::{Part, in_parentheses};
use crate::names::field_names;
use lexer::token::{Symbol, Word};
use syntax_tree::{FormalGroup, Passing};
use token_cursor::{Cursor, Read};

/// Formal parameters that are declared together, and the name of their type (6.6.3.1).
/// `formal-section = [ "var" ] names identifier .`
impl<'a> Part<'a> for FormalGroup<'a> {
    ghost look = { formal_outline };

    ghost rule = { spec.formal };

    #[tactic(auto, unfolding(reading::specs::Declarations::formal, reading::specs::Declarations::passing))]
    fn read(cursor: &mut Cursor<'_, 'a>) -> Read<Self> {
        let by = match cursor.take_word(Word::Var) {
            Some(_) => Passing::Variable,
            None => Passing::Value,
        };
        let names = field_names(cursor)?;
        let type_name = cursor.expect_name()?;
        Ok(FormalGroup {
            by,
            names,
            type_name,
        })
    }
}

/// The formal parameters of a procedure or function (6.6.3.1), which may be left out.
/// `formal-parameters = [ "(" formal-section { ";" formal-section } ")" ] .`
#[tactic(auto, using(crate::proofs::Parts::formal_leaves), unfolding(reading::specs::Declarations::formals))]
pub(crate) fn formals<'a>(cursor: &mut Cursor<'_, 'a>) -> Read<Vec<FormalGroup<'a>>>
    ensures { Makes (λ found. map formal_outline found.items) (formals cursor.old.rest.now) result cursor.new }
{
    in_parentheses(cursor, Symbol::Semicolon)
}
