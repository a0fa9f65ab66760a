ghost use Rattle.std.specs.Prelude.{◌≡◌, ◌<◌, true, IfOk, map, vec_len, vec_capacity};
ghost use Rattle.syntax_tree.specs.declared.Block.TheViews.{out-Routine};
ghost use Rattle.typed_tree.specs.Kinds.{is_held_stmt};
ghost use Rattle.typing.specs.Names.{heading_names};
ghost use Rattle.typing.specs.Outcomes.{TypingTakes};
ghost use Rattle.typing.specs.Passing.{each};
ghost use Rattle.typing.specs.Routines as spec;
ghost use Rattle.typing.specs.Routines.{typed_block, typed_routine};
ghost use Rattle.declarations.specs.Known.{AreKnown, AreKnownRoutines};
ghost use Rattle.resolver.specs.Made.{EndsRoutine, MakesBlocks, MakesBody, MakesStmt, are_held_made, statement_part};

use crate::statements::compound;
use crate::typed::MadeBlock;
use declarations::{BegunRoutine, Typed, begin_block, begin_routine, declare};
use place::Place;
use syntax_tree as syntax;
use syntax_tree::{Name, Routine};
use typed_tree::{Block, Heading, Stmt, TypeFault};
use typing::{BegunBlock, Typer, heading_name};

/// The statements of a block, behind its declarations (6.2.1). The blocks of its routines are made too.
#[cycle(blocks)]
pub(crate) fn body(
    typer: &mut Typer,
    made: &mut Vec<MadeBlock>,
    written: &syntax::Block,
) -> Typed<Stmt>
    requires known { AreKnown (typed_block written.now).names typer.old.regions }
    ensures made { MakesBody made.old.items made.new.items ((typed_block written.now).typing typer.old) result
        typer.new }
    ensures held { IfOk result (λ body. is_held_stmt body ≡ true) }
    ensures room { IfOk result (λ body. vec_len made.new < vec_capacity made.new) }
    ensures held_blocks { are_held_made made.old.items ≡ true → are_held_made made.new.items ≡ true }
{
    declare(typer, written)?;
    routines(typer, made, &written.routines)?;
    statement_part(typer, made, &written.statements)
}

// The statements of a block, once each routine came that was declared with the directive forward. There is room for the
// block then.
fn statement_part(
    typer: &mut Typer,
    made: &mut Vec<MadeBlock>,
    written: &[syntax::Stmt],
) -> Typed<Stmt>
    ensures made { MakesStmt (statement_part written.now typer.old) result typer.new }
    ensures held { IfOk result (λ body. is_held_stmt body ≡ true) }
    ensures room { IfOk result (λ body. vec_len made.new < vec_capacity made.new) }
    ensures same { made.new.items ≡ made.old.items }
{
    typer.all_came()?;
    made.reserve(1)?;
    compound(typer, written)
}

// Procedures and functions, one after another.
#[cycle(blocks)]
fn routines(typer: &mut Typer, made: &mut Vec<MadeBlock>, written: &[Routine]) -> Typed<()>
    requires known { AreKnownRoutines written.now typer.old.regions }
    ensures made { MakesBlocks made.old.items made.new.items
        (each (λ r. r.typing) (map typed_routine written.now) typer.old) result typer.new }
    ensures held { are_held_made made.old.items ≡ true → are_held_made made.new.items ≡ true }
{
    for next in written {
        routine(typer, made, next)?;
    }
    Ok(())
}

// A procedure or a function: its heading, and then its block or the directive forward (6.6.1, 6.6.2).
#[cycle(blocks)]
fn routine(typer: &mut Typer, made: &mut Vec<MadeBlock>, written: &Routine) -> Typed<()>
    requires known { AreKnown (heading_names (out-Routine written.now).heading) typer.old.regions }
    ensures made { MakesBlocks made.old.items made.new.items ((typed_routine written.now).typing typer.old) result
        typer.new }
    ensures held { are_held_made made.old.items ≡ true → are_held_made made.new.items ≡ true }
{
    let begun = begin_routine(typer, &written.heading)?;
    let name = heading_name(&written.heading);
    match &written.block {
        None => forward(typer, begun, name.place),
        Some(block) => {
            typer.told_waiting(begun.number, None)?;
            routine_block(typer, made, block, begun.number, &name)
        }
    }
}

// The directive forward stands behind the first heading alone: else the name is declared twice (S1).
fn forward(typer: &mut Typer, begun: BegunRoutine, place: Place) -> Typed<()>
    ensures { TypingTakes (spec.forward begun.is_first begun.number place typer.old) result typer.new }
{
    if !begun.is_first {
        return Err(TypeFault::DeclaredTwice(place));
    }
    typer.told_waiting(begun.number, Some(place))
}

// The block of a routine, behind its heading.
#[cycle(blocks)]
fn routine_block(
    typer: &mut Typer,
    made: &mut Vec<MadeBlock>,
    written: &syntax::Block,
    number: u32,
    name: &Name,
) -> Typed<()>
    ensures made { MakesBlocks made.old.items made.new.items
        (spec.routine_block number name.now (typed_block written.now) typer.old) result typer.new }
    ensures held { are_held_made made.old.items ≡ true → are_held_made made.new.items ≡ true }
{
    let begun = begin_block(typer, number, written)?;
    let body = body(typer, made, written)?;
    end_routine(typer, made, number, begun, body, name.place, written.end)
}

// The block of a routine ends, behind its statements, and stands behind the blocks that were made before. It is put
// there even where its result is refused, so that nothing is let go.
fn end_routine(
    typer: &mut Typer,
    made: &mut Vec<MadeBlock>,
    number: u32,
    begun: BegunBlock,
    body: Stmt,
    name: Place,
    end: Place,
) -> Typed<()>
    requires held { is_held_stmt body ≡ true }
    requires room { vec_len made.old < vec_capacity made.old }
    ensures made { EndsRoutine number begun body name end made.old.items made.new.items typer.old result typer.new }
    ensures held { are_held_made made.old.items ≡ true → are_held_made made.new.items ≡ true }
{
    let told = typer.result_at_end(name, end, begun.root);
    let BegunBlock {
        round,
        around,
        parameters,
        ..
    } = begun;
    typer.end_block(round);
    let heading = Heading {
        around,
        parameters,
        result: told.unwrap_or(None),
    };
    let block = Block { heading, body, end };
    made.push_reserved(MadeBlock { number, block });
    told?;
    Ok(())
}
