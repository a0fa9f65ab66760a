ghost use Rattle.std.specs.Prelude.{◌≡◌, ℕ, ◌+◌, ◌-◌, ◌<◌, ◌≤◌, ◌^◌, IfOk, count_by, length, take, slice_index};
ghost use Rattle.std.specs.Prelude.{vec_len};
ghost use Rattle.check_remover.specs.Places.{IsPlaces, new_place};
ghost use Rattle.check_remover.specs.Strip.{is_among, moved, moved_place};

use crate::sites::OpenSites;
use pcode_assembler::Instr;
use std::alloc::{AllocError, Global};

/// For each place of the code, and for the one past its end, how many instructions before it stay.
pub fn places_of(alloc: Global, code: &[Instr], sites: &OpenSites) -> Result<Vec<usize>, AllocError>
    ensures { IfOk result (λ places.
        IsPlaces (moved_place (is_among sites.now) code.now) (length code.now) places.items) }
{
    let mut places = Vec::with_capacity(alloc, code.len() + 1)?;
    let mut kept = 0;
    for instr in code {
        places.push(kept)?;
        if sites.keep(instr) {
            kept += 1;
        }
    }
    places.push(kept)?;
    Ok(places)
}

/// The instruction with its jump moved.
pub fn with_moved_jump(instr: Instr, places: &[usize]) -> Instr
    requires some { 1 ≤ length places.now }
    requires small { (place : ℕ) → new_place places.now place ≤ place }
    ensures { result ≡ moved (new_place places.now) instr }
{
    let mut instr = instr;
    match &mut instr {
        Instr::Jump { target } => *target = place_in(places, *target),
        Instr::JumpIfFalse { target } => *target = place_in(places, *target),
        Instr::CallProcedure { target, .. } => *target = place_in(places, *target),
        _ => {}
    }
    instr
}

/// Where a jump to this place goes.
fn place_in(places: &[usize], place: u32) -> u32
    requires some { 1 ≤ length places.now }
    requires small { new_place places.now place ≤ place }
    ensures { result ≡ new_place places.now place }
{
    let last = places.len() - 1;
    places[last.min(place as usize)] as u32
}
