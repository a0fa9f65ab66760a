ghost use Rattle.std.specs.Prelude.{◌≡◌, if◌then◌else◌, map, None, Some};
ghost use Rattle.std.specs.Option.{option_map};
ghost use Rattle.reading.specs.Declarations as spec;
ghost use Rattle.reading.specs.Reading.{next_kind};
ghost use Rattle.reading.specs.Trees.{block_outline, body_outline, routine_outline};
ghost use Rattle.token_cursor.specs.Cursor.{Makes, CursorTakes};
ghost use Rattle.parser.specs.Blocks.{block_below, may_take_forward};
ghost use Rattle.parser.specs.Built.{compound_outlines};

use crate::beside::made_beside;
use crate::headings::{heading, takes_directive};
use crate::lists::{block_part, is_next};
use crate::statement::compound;
use lexer::token::{Kind, Symbol, Word};
use place::Place;
use syntax_tree::{Block, Routine, Stmt};
use token_cursor::{Cursor, Read, inside, put};

/// A block (6.2.1), below which `levels` levels are left.
/// `block = constant-part type-part variable-part routines statement-part .`
#[cycle(block)]
#[tactic(auto, using(crate::proofs::Blocks::parts_of_blocks), unfolding(reading::specs::Declarations::block_of))]
pub(crate) fn block<'a>(cursor: &mut Cursor<'_, 'a>, levels: u32) -> Read<Block<'a>>
    ensures { Makes block_outline (spec.block levels cursor.old.rest.now) result cursor.new }
{
    let constants = block_part(cursor, levels, Word::Const)?;
    let types = made_beside!(block_part(cursor, levels, Word::Type), constants);
    let variables = made_beside!(block_part(cursor, levels, Word::Var), constants, types);
    let routines = made_beside!(routines(cursor, levels), constants, types, variables);
    let part = statement_part(cursor, levels);
    let (statements, end) = made_beside!(part, constants, types, variables, routines);
    Ok(Block {
        constants,
        types,
        variables,
        routines,
        statements,
        end,
    })
}

/// The compound statement of a block below which `levels` levels are left: its statements, and its `end`.
/// `statement-part = compound-statement .`
#[tactic(auto, using(crate::proofs::Blocks::statement_part_at))]
fn statement_part<'a>(cursor: &mut Cursor<'_, 'a>, levels: u32) -> Read<(Vec<Stmt<'a>>, Place)>
    ensures { Makes compound_outlines (spec.statement_part levels cursor.old.rest.now) result cursor.new }
{
    let levels = inside(levels, cursor.place())?;
    compound(cursor, levels)
}

/// The declarations of procedures and functions (6.6), in a block below which `levels` levels are left.
/// `routines = { routine } .`
#[cycle(block)]
fn routines<'a>(cursor: &mut Cursor<'_, 'a>, levels: u32) -> Read<Vec<Routine<'a>>>
    ensures { Makes (λ found. map routine_outline found.items) (spec.routines (block_below levels) cursor.old.rest.now)
        result cursor.new }
{
    let mut routines = Vec::new(cursor.alloc);
    while begins_routine(cursor) {
        put(&mut routines, routine(cursor, levels))?;
    }
    Ok(routines)
}

/// Whether a procedure or function comes next.
fn begins_routine(cursor: &Cursor<'_, '_>) -> bool
    ensures { result ≡ spec.begins_routine (next_kind cursor.now.rest.now) }
{
    is_next(cursor, Kind::Word(Word::Procedure)) || is_next(cursor, Kind::Word(Word::Function))
}

/// The declaration of a procedure (6.6.1) or function (6.6.2).
/// `routine = heading body ";" .`
#[cycle(block)]
#[tactic(auto, using(crate::proofs::Blocks::built_routine), unfolding(reading::specs::Declarations::routine))]
fn routine<'a>(cursor: &mut Cursor<'_, 'a>, levels: u32) -> Read<Routine<'a>>
    ensures { Makes routine_outline (spec.routine (block_below levels) cursor.old.rest.now) result cursor.new }
{
    let heading = heading(cursor)?;
    let directive = takes_directive(&heading);
    let block = body(cursor, levels, directive);
    let block = cursor.followed_by(block, Kind::Symbol(Symbol::Semicolon));
    let block = made_beside!(block, heading);
    Ok(Routine { heading, block })
}

/// The block of a procedure or function, or none where `forward` stands in its place, which it may
/// where `directive` says so.
/// `body = block | "forward" .`
#[cycle(block)]
#[tactic(auto, using(crate::proofs::Blocks::below_at), unfolding(reading::specs::Declarations::body))]
fn body<'a>(cursor: &mut Cursor<'_, 'a>, levels: u32, directive: bool) -> Read<Option<Block<'a>>>
    ensures { Makes (λ block. body_outline directive (option_map block_outline block))
        (spec.body (block_below levels) directive cursor.old.rest.now) result cursor.new }
{
    if stands_forward(cursor, directive) {
        return Ok(None);
    }
    let levels = inside(levels, cursor.place())?;
    block(cursor, levels).map(Some)
}

/// Whether `forward` comes next where it may stand, which is taken.
fn stands_forward(cursor: &mut Cursor<'_, '_>, directive: bool) -> bool
    ensures { CursorTakes (may_take_forward directive) cursor.old (if result then Some tt else None) cursor.new }
{
    directive && cursor.take_forward()
}
