ghost use Rattle.std.specs.Prelude.{◌≡◌, [], ◌++◌, Ok, IfOk, IfErr, MatchResult};
ghost use Rattle.typing.specs.Blocks.{BeginsBlock, block_begins};
ghost use Rattle.typing.specs.Names.{all_folded};
ghost use Rattle.typing.specs.Outcomes.{TypingTakes, IsFault};
ghost use Rattle.typing.specs.Passing.{after};
ghost use Rattle.typing.specs.Routines.{typed_block};
ghost use Rattle.typing.specs.Typing.{parameters_of_program};
ghost use Rattle.declarations.specs.Parts.{declared};
ghost use Rattle.declarations.specs.Known.{AreKnown};

use crate::Typed;
use crate::names::{block_names, program_names};
use crate::parameters::declare_parameters;
use std::alloc::Global;
use syntax_tree::{Block, Program};
use typing::{BegunBlock, Typer};

/// What is known behind the parameters of a program, where its block begins, or the first rule that they break, with
/// its place (S1, K8). Its region knows the names that its block defines.
pub fn begin_program(alloc: Global, program: &Program) -> Typed<Typer>
    ensures passed { IfOk result (λ typer. declared program.now ≡ Ok (after tt [] typer)) }
    ensures known { IfOk result (λ typer. AreKnown (typed_block program.now.block).names typer.regions) }
    ensures refused { IfErr result (λ why. IsFault (declared program.now) why) }
{
    let mut typer = Typer::new(alloc, program.name.place)?;
    begin(&mut typer, program)?;
    Ok(typer)
}

// Passes the parameters, with the region of the required identifiers round them.
#[tactic(auto, unfolding(typing::specs::Typing::parameters_of_program))]
fn begin(typer: &mut Typer, program: &Program) -> Typed<()>
    ensures passed { TypingTakes (parameters_of_program program.now (typed_block program.now.block) typer.old)
        result typer.new }
    ensures known { IfOk result (λ _. AreKnown (typed_block program.now.block).names typer.new.regions) }
{
    typer.open_required()?;
    let names = program_names(typer.alloc, program)?;
    typer.open_block(&names)?;
    declare_parameters(typer, &program.parameters)
}

/// Begins the block of a routine, behind its heading; its region knows the names that it defines.
pub fn begin_block(typer: &mut Typer, number: u32, block: &Block) -> Typed<BegunBlock>
    ensures begun { BeginsBlock (block_begins number (all_folded (typed_block block.now).names) typer.old) result
        typer.new }
    ensures known { IfOk result (λ _. AreKnown (typed_block block.now).names typer.new.regions) }
{
    let names = block_names(typer.alloc, block)?;
    typer.begin_block(number, &names)
}
