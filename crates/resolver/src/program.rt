ghost use Rattle.std.specs.Prelude.{◌≡◌, ◌≤◌, [], true, Ok, IfOk, IfErr, MatchResult, length, map, vec_len};
ghost use Rattle.std.specs.List.{range_with_len};
ghost use Rattle.place.specs.Place.{ArePlacesInOrder};
ghost use Rattle.syntax_tree.specs.Places.{program_places};
ghost use Rattle.typed_tree.specs.Entries.{AreNumbered};
ghost use Rattle.typed_tree.specs.Ids.{AreInOrder, AreByPlace, ArePointsInOrder};
ghost use Rattle.typed_tree.specs.Loops.{loops_of};
ghost use Rattle.typed_tree.specs.WellFormed.{IsWellFormed};
ghost use Rattle.typing.specs.Outcomes.{IsFault};
ghost use Rattle.typing.specs.Sound.{IsTyped, stands};
ghost use Rattle.typing.specs.Routines.{typed_block};
ghost use Rattle.typing.specs.Typing.{typing};
ghost use Rattle.declarations.specs.Known.{AreKnown};
ghost use Rattle.declarations.specs.Parts.{declared};
ghost use Rattle.typing.specs.declared.typer.TheConstants.{MOST_SITES};
ghost use Rattle.types.specs.Types.{BeginWithRequired};
ghost use Rattle.typing.specs.Passing.{after};
ghost use Rattle.memory.specs.Refused.{the_refusal};
ghost use Rattle.typed_tree.specs.declared.fault.TypeFault.TheVariants.{Memory};
ghost use Rattle.resolver.specs.Made.{AreArranged, AreLaidBlocks, AreLaidOut, IsResolved, are_held_made, look_made};

use crate::blocks::body;
use crate::table::table_of;
use crate::typed::{LaidBlocks, MadeBlock};
use declarations::{Typed, begin_program};
use std::alloc::{AllocError, Global};
use syntax_tree::Program;
use typed_tree::{Block, Heading, Tree};
use typing::Typer;

/// The typed tree of a program, or the first rule of names and types that it breaks, with its place.
pub fn resolve(alloc: Global, program: &Program) -> Typed<Tree>
    // It is the typed tree of the program, which breaks no rule of names and types.
    ensures typed { IfOk result (IsTyped program.now) }

    // What is told is the first rule that the program breaks, or want of memory.
    ensures refused { IfErr result (IsFault (typing program.now)) }

    // Entries are numbered from 0, in the order of the text.
    ensures numbered { IfOk result AreNumbered }

    // So are loops, in the order of their first words.
    ensures loops_numbered { IfOk result (λ tree.
        map (λ l. l.0) (loops_of tree) ≡ range_with_len 0 (length (loops_of tree))) }

    // Sites have their places in the table as ids, and stand there by place and then by kind.
    ensures in_order { IfOk result (λ tree. AreInOrder tree.sites.items) }
    ensures by_place { ArePlacesInOrder (program_places program.now)
        → IfOk result (λ tree. AreByPlace (map stands tree.sites.items)) }
    ensures few_sites { IfOk result (λ tree. vec_len tree.sites ≤ MOST_SITES) }

    // Points have their places in the table as ids.
    ensures points_in_order { IfOk result (λ tree. ArePointsInOrder tree.points.items) }
    ensures few_points { IfOk result (λ tree. vec_len tree.points ≤ MOST_SITES) }

    // Each variable, each site and each point that the tree names is in its table.
    ensures well_formed { IfOk result IsWellFormed }

    // Its types are the required ones, and then the program's own.
    ensures types { IfOk result (λ tree. BeginWithRequired tree.types) }
{
    typed_program(alloc, program)
}

// Its blocks, each in its place by its number.
fn typed_program(alloc: Global, program: &Program) -> Typed<Tree>
    ensures { MatchResult result (IsResolved program.now) (IsFault (typing program.now)) }
{
    let mut typer = begin_program(alloc, program)?;
    let laid = laid_blocks(&mut typer, program)?;
    Ok(typer.tree(laid.blocks, laid.bodies, laid.loops))
}

// Passes the block of a program, behind its parameters, and makes its blocks as its tree has them.
fn laid_blocks(typer: &mut Typer, program: &Program) -> Typed<LaidBlocks>
    requires begun { declared program.now ≡ Ok (after tt [] typer.old) }
    requires known { AreKnown (typed_block program.now.block).names typer.old.regions }
    ensures { MatchResult result (AreLaidBlocks program.now typer.new) (IsFault (typing program.now)) }
{
    let mut made = Vec::new(typer.alloc);
    program_blocks(typer, &mut made, program)?;
    laid_out(typer.alloc, made)
}

// Passes the block of a program, behind its parameters, and makes its blocks in the order of the text, its own last.
fn program_blocks(typer: &mut Typer, made: &mut Vec<MadeBlock>, program: &Program) -> Typed<()>
    requires none { made.old.items ≡ [] }
    requires begun { declared program.now ≡ Ok (after tt [] typer.old) }
    requires known { AreKnown (typed_block program.now.block).names typer.old.regions }
    ensures made { MatchResult result (λ _. typing program.now ≡ Ok (after tt (look_made made.new.items) typer.new))
        (IsFault (typing program.now)) }
    ensures held { IfOk result (λ _. are_held_made made.new.items ≡ true) }
{
    let body = body(typer, made, &program.block)?;
    let heading = Heading {
        around: Vec::new(typer.alloc),
        parameters: Vec::new(typer.alloc),
        result: None,
    };
    let block = Block {
        heading,
        body,
        end: program.block.end,
    };
    made.push_reserved(MadeBlock { number: 0, block });
    Ok(())
}

// Blocks that were made in the order of the text, as a tree has them.
#[tactic(auto, using(crate::proofs::Arranged::arranged_held))]
fn laid_out(alloc: Global, made: Vec<MadeBlock>) -> Typed<LaidBlocks>
    requires held { are_held_made made.items ≡ true }
    ensures { MatchResult result (AreLaidOut made.items) (λ why. why ≡ Memory the_refusal) }
{
    let loops = table_of(alloc, &made)?;
    let bodies = made.iter().map(|one| one.number).collect(alloc)?;
    let blocks = arranged(alloc, made)?;
    Ok(LaidBlocks {
        blocks,
        bodies,
        loops,
    })
}

// Blocks by their numbers.
fn arranged(alloc: Global, made: Vec<MadeBlock>) -> Result<Vec<Block>, AllocError>
    ensures { IfOk result (λ blocks. AreArranged made.items blocks.items) }
{
    let mut sorted = made;
    sorted.sort_by_key(|one| one.number)?;
    blocks_of(alloc, sorted)
}

// Blocks without their numbers.
fn blocks_of(alloc: Global, made: Vec<MadeBlock>) -> Result<Vec<Block>, AllocError>
    ensures { IfOk result (λ blocks. blocks.items ≡ map (λ one. one.block) made.items) }
{
    made.into_iter().map(|one| one.block).collect(alloc)
}
