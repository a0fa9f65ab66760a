ghost use Rattle.std.specs.Prelude.{◌≡◌, IfErr, IfOk, MatchOption, map};
ghost use Rattle.place.specs.Place.{ArePlacesInOrder};
ghost use Rattle.syntax_tree.specs.Places.{program_places};
ghost use Rattle.reading.specs.Declarations as spec;
ghost use Rattle.reading.specs.Laws.{HasOneTree};
ghost use Rattle.reading.specs.Trees.{name_outline, program_outline};
ghost use Rattle.token_cursor.specs.Cursor.{Makes};
ghost use Rattle.token_cursor.specs.LeftOut.{first_left_out};
ghost use Rattle.parser.specs.Ended.{IsEnded};
ghost use Rattle.parser.specs.Syntax.{most, Answers, IsDeep, IsOfRules, IsReadAs};

use crate::beside::made_beside;
use crate::block::block;
use crate::lists::in_parentheses;
use lexer::token::{Kind, Symbol, Token, Word};
use std::alloc::Global;
use syntax_tree::{Name, Program};
use token_cursor::fault::{ParseFault, fault_of};
use token_cursor::left_out::first_left_out;
use token_cursor::{Cursor, MAX_NESTING, Read};

/// The syntax tree that the tokens spell (6.2 to 6.10), its parentheses kept. P3 where a token stands that only forms
/// left out have: the first of these, before all else. Otherwise P1 at the first token with which no program goes on,
/// or just past the last, or P2 where the nesting passes `MAX_NESTING`, whichever comes first as the tokens are read;
/// nesting alone is never P1. Up to the place of P2 the tokens hold `MAX_NESTING` words or symbols that open a level.
/// No list of tokens has two trees, and where its places ascend, those of the tree do.
pub fn parse<'a>(alloc: Global, tokens: &[Token<'a>]) -> Result<Program<'a>, ParseFault>
    ensures left_out { MatchOption (first_left_out tokens.now) (IfErr result IsOfRules)
        (λ place. result ≡ Err (ParseFault.LeftOut place)) }
    ensures exact { Answers result tokens.now }
    ensures read { IsReadAs result tokens.now }
    ensures one_tree { HasOneTree tokens.now }
    ensures in_order { ArePlacesInOrder (map (λ token. token.place) tokens.now)
        → IfOk result (λ tree. ArePlacesInOrder (program_places tree)) }
    ensures deep { IfErr result (IsDeep most tokens.now) }
{
    if let Some(place) = first_left_out(tokens) {
        return Err(ParseFault::LeftOut(place));
    }
    let mut cursor = Cursor::new(alloc, tokens);
    match program(&mut cursor) {
        Ok(tree) => Ok(tree),
        Err(refusal) => Err(fault_of(tokens, cursor.rest.len(), refusal)),
    }
}

/// A program and nothing behind it.
/// `program = "program" identifier parameters ";" block "." .`
#[tactic(auto, unfolding(reading::specs::Declarations::program))]
fn program<'a>(cursor: &mut Cursor<'_, 'a>) -> Read<Program<'a>>
    ensures { Makes program_outline (spec.program most cursor.old.rest.now) result cursor.new }
{
    cursor.expect_word(Word::Program)?;
    let name = cursor.expect_name()?;
    let parameters = parameters(cursor);
    let parameters = cursor.followed_by(parameters, Kind::Symbol(Symbol::Semicolon))?;
    let block = block(cursor, MAX_NESTING);
    let block = made_beside!(ended(cursor, block), parameters);
    Ok(Program {
        name,
        parameters,
        block,
    })
}

/// What a rule read, if the period of a program stands behind it and nothing else.
fn ended<T: Drop>(cursor: &mut Cursor<'_, '_>, found: Read<T>) -> Read<T>
    ensures { IsEnded found cursor.old result cursor.new }
{
    let made = found?;
    cursor.expect_period_at_end()?;
    Ok(made)
}

/// `parameters = [ "(" identifier { "," identifier } ")" ] .`
#[tactic(auto, using(crate::proofs::Parts::lists_of_names), unfolding(reading::specs::Declarations::parameters))]
fn parameters<'a>(cursor: &mut Cursor<'_, 'a>) -> Read<Vec<Name<'a>>>
    ensures { Makes (λ found. map name_outline found.items) (spec.parameters cursor.old.rest.now) result cursor.new }
{
    in_parentheses(cursor, Symbol::Comma)
}

/// Lets a program go. How the parts of a value are let go is proved in each crate that does so; this one does it for
/// the crate that holds whole programs, which has the longest way below it.
pub fn release(_program: Program) {}
