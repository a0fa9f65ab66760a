ghost use Rattle.std.specs.Prelude.{◌≡◌, false, true, map, IfOk};
ghost use Rattle.std.specs.List.{list_all};
ghost use Rattle.pcode_assembler.specs.Bounds.{in_bounds};
ghost use Rattle.code_scheme.specs.Calls.{place_in, with_call as leads_to};
ghost use Rattle.code_scheme.specs.Code.{program_code};
ghost use Rattle.code_scheme.specs.Large.{is_too_large};

use crate::block::emit_block;
use crate::{Emitter, Loss};
use code_scheme::{Scope, frame_at, frames, homes};
use pcode_assembler::Instr;
use std::alloc::Global;
use typed_tree::Tree;

/// The instructions of the program, block by block: each has its frame with its variables and as many cells further as
/// its evaluation needs, its body, and its end. The text of a code has room for each operand, for every tree.
///
/// # Errors
/// Want of memory; or code that is too large, which may be told only where it is.
pub fn instructions_of(alloc: Global, tree: &Tree) -> Result<Vec<Instr>, Loss>
    ensures instructions { IfOk result (λ code. code.items ≡ program_code tree.now) }
    ensures small { IfOk result (λ _. is_too_large tree.now ≡ false) }
    ensures too_large { result ≡ Err Loss.TooLarge → is_too_large tree.now ≡ true }
    ensures in_bounds { IfOk result (λ code. list_all in_bounds code.items ≡ true) }
{
    let frames = frames(alloc, tree)?;
    let homes = homes(alloc, tree, frames.as_slice())?;
    let mut places = Vec::with_capacity(alloc, tree.blocks.len())?;
    let mut code = Emitter::new(alloc);
    let mut number = 0;
    for block in &tree.blocks {
        places.push(code.place())?;
        let scope = Scope::of_block(tree, homes.as_slice(), frames.as_slice(), number);
        let frame = frame_at(frames.as_slice(), number);
        emit_block(&mut code, &scope, frame, number, block);
        number += 1;
    }
    let mut instructions = code.into_code()?;
    place_calls(&mut instructions, places.as_slice());
    Ok(instructions)
}

/// Calls lead to numbers of blocks; where the blocks stand, they lead to those places.
fn place_calls(code: &mut Vec<Instr>, places: &[u32])
    ensures { code.new.items ≡ map (leads_to (place_in places.now)) code.old.items }
{
    for place in 0..code.len() {
        code[place] = with_call(code[place], places);
    }
}

/// An instruction; a call leads to the place of the block whose number it has.
fn with_call(instr: Instr, places: &[u32]) -> Instr
    ensures { result ≡ leads_to (place_in places.now) instr }
{
    let mut instr = instr;
    if let Instr::CallProcedure { target, .. } = &mut instr {
        *target = places.get(*target as usize).copied().unwrap_or(0);
    }
    instr
}
