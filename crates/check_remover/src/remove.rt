ghost use Rattle.std.specs.Prelude.{◌≡◌, ℕ, ◌≤◌, IfOk, length, map, filter};
ghost use Rattle.pcode_assembler.specs.Contents.{HasText};
ghost use Rattle.pcode_assembler.specs.Writable.{EndsInNoCheck, IsWritable};
ghost use Rattle.check_remover.specs.Places.{new_place};
ghost use Rattle.check_remover.specs.Strip.{KeepsInstructions, is_among, moved, stays, strip};

use crate::places::{places_of, with_moved_jump};
use crate::sites::OpenSites;
use pcode_assembler::{Code, Instr, Site};
use std::alloc::{AllocError, Global};

/// The code without its checks at sites whose id isn't among the open ones. A jump goes to the first
/// remaining instruction at or after its old target, or just past the last. The tables stay. Code that can be written
/// and whose last instruction is no check can be written then too, and code that a text can say has one then too.
///
/// # Errors
/// Want of memory.
pub fn remove(alloc: Global, code: &Code, open_sites: &[Site]) -> Result<Code, AllocError>
    ensures instructions { IfOk result
        (λ stripped. stripped.instructions.items ≡ strip open_sites.now code.now.instructions.items) }
    ensures kept { IfOk result (λ stripped.
        KeepsInstructions open_sites.now code.now.instructions.items stripped.instructions.items) }
    ensures sites { IfOk result (λ stripped. stripped.sites.items ≡ code.now.sites.items) }
    ensures points { IfOk result (λ stripped. stripped.points.items ≡ code.now.points.items) }
    ensures last { IfOk result (λ stripped.
        EndsInNoCheck code.now.instructions.items → EndsInNoCheck stripped.instructions.items) }
    ensures writable { IfOk result (λ stripped.
        IsWritable code.now → EndsInNoCheck code.now.instructions.items → IsWritable stripped) }
    ensures text { IfOk result (λ stripped.
        HasText code.now → EndsInNoCheck code.now.instructions.items → HasText stripped) }
{
    Ok(Code {
        instructions: stripped(alloc, code, open_sites)?,
        sites: Vec::from_slice(alloc, code.sites.as_slice())?,
        points: Vec::from_slice(alloc, code.points.as_slice())?,
    })
}

/// The instructions without the checks of sites that aren't open.
fn stripped(alloc: Global, code: &Code, open_sites: &[Site]) -> Result<Vec<Instr>, AllocError>
    ensures { IfOk result (λ rest. rest.items ≡ strip open_sites.now code.now.instructions.items) }
{
    let open_sites = OpenSites::new(alloc, open_sites, code.sites.len())?;
    let instructions = code.instructions.as_slice();
    let places = places_of(alloc, instructions, &open_sites)?;
    kept(alloc, instructions, &open_sites, places.as_slice())
}

/// The instructions that stay, their jumps moved.
fn kept(
    alloc: Global,
    code: &[Instr],
    open_sites: &OpenSites,
    places: &[usize],
) -> Result<Vec<Instr>, AllocError>
    requires some { 1 ≤ length places.now }
    requires small { (place : ℕ) → new_place places.now place ≤ place }
    ensures { IfOk result (λ rest. rest.items
        ≡ map (moved (new_place places.now)) (filter (stays (is_among open_sites.now)) code.now)) }
{
    let mut rest = Vec::with_capacity(alloc, places[places.len() - 1])?;
    for instr in code {
        if open_sites.keep(instr) {
            rest.push(with_moved_jump(*instr, places))?;
        }
    }
    Ok(rest)
}
