ghost use Rattle.std.specs.Prelude.{◌≡◌, ◌<◌, ◌+◌, ◌++◌, ◌∷◌, [], ℕ, List, IfOk, OnOk, if◌then◌else◌, length};
ghost use Rattle.std.specs.Prelude.{slice_get};
ghost use Rattle.typed_tree.specs.declared.tree.Variable.{Variable as Declared};
ghost use Rattle.typed_tree.specs.WellFormed.{is_parameter_kind, is_variable_kind};
ghost use Rattle.code_scheme.specs.Frames.{frame_at as frame_in, start_with, AreCounted};
ghost use Rattle.code_scheme.specs.Scopes.{block_level, homes_of, level_of as level_in, slot_cells as cells_of_slot};
ghost use Rattle.code_scheme.specs.Sizes.{capped};

use crate::{GREATEST_OFFSET, Home, LINKS};
use std::alloc::{AllocError, Global};
use typed_tree::{Block, Tree, Variable, VariableKind};
use types::TypeTable;

/// How many cells the frame of a block has behind its links: each is a number of 32 bits, or the greatest.
#[derive(Clone, Copy)]
pub struct Frame {
    /// Of its parameters.
    pub parameters: u32,
    /// Of its other variables.
    pub others: u32,
}

/// The frame of a block that declares no variable.
const EMPTY: Frame = Frame {
    parameters: 0,
    others: 0,
};

/// The frames of all blocks, by number; those without variables may be left out at the end.
pub fn frames(alloc: Global, tree: &Tree) -> Result<Vec<Frame>, AllocError>
    ensures { IfOk result (λ frames. AreCounted tree.now.types tree.now.variables.items frames.items) }
{
    let mut frames = Vec::new(alloc);
    for variable in &tree.variables {
        count_in(&mut frames, &tree.types, *variable)?;
    }
    Ok(frames)
}

/// Where all variables lie, by root, if these are the frames of the blocks.
pub fn homes(alloc: Global, tree: &Tree, frames: &[Frame]) -> Result<Vec<Home>, AllocError>
    ensures { AreCounted tree.now.types tree.now.variables.items frames.now →
        IfOk result (λ homes. homes.items ≡ homes_of tree.now) }
{
    let mut homes = Vec::with_capacity(alloc, tree.variables.len())?;
    let mut before = Vec::new(alloc);
    for variable in &tree.variables {
        let start = start_in(&before, frames, *variable);
        homes.push(home_at(tree, *variable, start))?;
        count_in(&mut before, &tree.types, *variable)?;
    }
    Ok(homes)
}

/// The frame of the block with this number.
pub fn frame_at(frames: &[Frame], block: usize) -> Frame
    ensures { result ≡ frame_in frames.now block }
{
    frames.get(block).copied().unwrap_or(EMPTY)
}

/// The level of the block with this number among these: how many stand round it.
pub fn level_of(blocks: &[Block], number: usize) -> usize
    ensures { result ≡ level_in (slice_get blocks.now number) }
{
    let block = blocks.get(number);
    block.map_or(0, |block| block.heading.around.len())
}

/// Where a variable begins in the frame of its block, where those before it are counted so, and all so.
fn start_in(before: &[Frame], all: &[Frame], variable: Variable) -> u32
    ensures { result ≡ start_with before.now all.now variable }
{
    let block = variable.block as usize;
    let before = frame_at(before, block);
    let parameters = frame_at(all, block).parameters;
    let cells = match variable.kind {
        VariableKind::ValueParameter | VariableKind::VariableParameter => before.parameters,
        VariableKind::Local | VariableKind::Result => parameters.saturating_add(before.others),
    };
    cells.saturating_add(LINKS).min(GREATEST_OFFSET)
}

/// Where a variable lies that begins here in the frame of its block.
fn home_at(tree: &Tree, variable: Variable, start: u32) -> Home
    ensures { result ≡ record {
      level = block_level tree.now variable.block;
      start = start;
      refers = is_variable_kind variable.kind;
    } }
{
    Home {
        level: level_of(tree.blocks.as_slice(), variable.block as usize),
        start,
        refers: matches!(variable.kind, VariableKind::VariableParameter),
    }
}

/// Counts a variable more.
fn count_in(
    frames: &mut Vec<Frame>,
    types: &TypeTable,
    variable: Variable,
) -> Result<(), AllocError>
    ensures { OnOk result ((variables : List Declared) → AreCounted types.now variables frames.old.items
        → AreCounted types.now (variables ++ variable ∷ []) frames.new.items) }
{
    let block = variable.block as usize;
    make_room(frames, block)?;
    let cells = slot_cells(types, variable);
    frames[block] = with_slot(frames[block], variable.kind, cells);
    Ok(())
}

/// Has a frame for each block up to the one with this number.
fn make_room(frames: &mut Vec<Frame>, block: usize) -> Result<(), AllocError>
    requires { block < 4294967296 }
    ensures kept { OnOk result ((other : ℕ) → frame_in frames.new.items other ≡ frame_in frames.old.items other) }
    ensures room { OnOk result (block < length frames.new.items) }
{
    while frames.len() <= block {
        frames.push(EMPTY)?;
    }
    Ok(())
}

/// The frame with a variable of a kind more, which takes so many cells.
fn with_slot(frame: Frame, kind: VariableKind, cells: u32) -> Frame
    ensures { result ≡ (if is_parameter_kind kind
        then record { parameters = capped (frame.parameters + cells); others = frame.others }
        else record { parameters = frame.parameters; others = capped (frame.others + cells) }) }
{
    match kind {
        VariableKind::ValueParameter | VariableKind::VariableParameter => Frame {
            parameters: frame.parameters.saturating_add(cells),
            others: frame.others,
        },
        VariableKind::Local | VariableKind::Result => Frame {
            parameters: frame.parameters,
            others: frame.others.saturating_add(cells),
        },
    }
}

/// How many cells the variable takes in a frame.
pub fn slot_cells(types: &TypeTable, variable: Variable) -> u32
    ensures { result ≡ cells_of_slot types.now variable }
{
    match variable.kind {
        VariableKind::VariableParameter => 1,
        _ => types.cells(variable.type_id),
    }
}
