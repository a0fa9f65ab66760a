ghost use Rattle.std.specs.Prelude.{◌≡◌, ◌<◌, ◌≤◌, ◌^◌, [], false, IfOk, IsSome, MatchOption, length, map, replicate};
ghost use Rattle.std.specs.Prelude.{slice_get, suc};
ghost use Rattle.typed_tree.specs.WellFormed.{IsWellFormed};
ghost use Rattle.domain.specs.declared.versions.Version.{Version};
ghost use Rattle.certificate.specs.Contents.{said_fact};
ghost use Rattle.checker_rows.specs.View.{numbers};
ghost use Rattle.checker_state.specs.State.{of_types};
ghost use Rattle.checker_trail.specs.Trail.{Moves, seen};
ghost use Rattle.checker_known.specs.View.{type_rows};
ghost use Rattle.checker_loops.specs.Starts.{all_declared, block_start, is_own, is_passed_value};
ghost use Rattle.checker_loops.specs.BlockView.{all_begun, begun, begun_undefined, own_roots, rows_defined};
ghost use Rattle.checker_loops.specs.BlockView.{rows_vacant, with_root};

use crate::claim_facts;
use certificate::Fact;
use checker_rows::Span;
use checker_trail::State;
use domain::Interval;
use std::alloc::{AllocError, Global};
use typed_tree::{Tree, Variable, VariableKind};

/// The root numbers of the variables that each block of a program declares, by its number, and behind them those of
/// variables whose block isn't there. `None`: 32 bits don't number so many variables.
///
/// # Errors
/// No memory.
pub fn all_declared(alloc: Global, tree: &Tree) -> Result<Option<Vec<Vec<u32>>>, AllocError>
    ensures { IfOk result (λ found. MatchOption found (2 ^ 32 ≤ length tree.now.variables.items)
        (λ rows. map (λ row. row.items) rows.items ≡ all_declared tree.now)) }
{
    let Some(count) = root_count(tree) else {
        return Ok(None);
    };
    let mut found = empty_rows(alloc, tree.blocks.len())?;
    for root in 0..count {
        let block = tree.variables[root as usize].block as usize;
        declare(&mut found, block.min(tree.blocks.len()), root)?;
    }
    Ok(Some(found))
}

// How many variables there are, if 32 bits hold their number, as of each well formed tree.
fn root_count(tree: &Tree) -> Option<u32>
    ensures count { MatchOption result (2 ^ 32 ≤ length tree.now.variables.items)
        (λ count. count ≡ length tree.now.variables.items) }
    ensures few { IsWellFormed tree.now → IsSome result }
{
    let count = tree.variables.len();
    if count > u32::MAX as usize {
        return None;
    }
    Some(count as u32)
}

// So many rows with no variables, and one more.
fn empty_rows(alloc: Global, count: usize) -> Result<Vec<Vec<u32>>, AllocError>
    ensures { IfOk result (λ rows. map (λ row. row.items) rows.items ≡ replicate (suc count) []) }
{
    let mut rows = Vec::new(alloc);
    rows.push(Vec::new(alloc))?;
    for _ in 0..count {
        rows.push(Vec::new(alloc))?;
    }
    Ok(rows)
}

// Puts a variable behind those of a block.
fn declare(rows: &mut Vec<Vec<u32>>, block: usize, root: u32) -> Result<(), AllocError>
    requires { block < length rows.old.items }
    ensures { IfOk result (λ _. map (λ row. row.items) rows.new.items
        ≡ with_root block root (map (λ row. row.items) rows.old.items)) }
{
    if let Some(found) = rows.get_mut(block) {
        found.push(root)?;
    }
    Ok(())
}

/// What is known where an activation of the block of a number begins (ISO 7185:1990, 6.2.3.2, 6.6.3.2), of which these
/// facts are claimed, by the variables that each block declares. Before it nothing is known but by types.
pub fn begin_block(state: &mut State, declared: &[Vec<u32>], block: u32, facts: &[Fact])
    ensures long { state.new.refused ≡ None → state.old.refused ≡ None }
    ensures begins { (rules : Version) → map (λ row. row.items) declared.now ≡ all_declared state.old.table.now
        → seen state.old ≡ of_types rules (type_rows state.old.table.now)
        → Moves (λ _. block_start rules state.old.table.now block (map said_fact facts.now)) state.old state.new }
{
    begin_all(
        state,
        block,
        own_roots(state.table().tree(), declared, block),
    );
    claim_facts(state, facts);
}

// The variables that a block declares, by those of each.
fn own_roots<'a>(tree: &Tree, declared: &'a [Vec<u32>], block: u32) -> &'a [u32]
    ensures { result.now ≡ own_roots tree.now (map (λ row. row.items) declared.now) block }
{
    match declared.get((block as usize).min(tree.blocks.len())) {
        None => &[],
        Some(roots) => roots.as_slice(),
    }
}

// Variables of a block begin.
fn begin_all(state: &mut State, block: u32, roots: &[u32])
    ensures { Moves (all_begun state.old.table.now block roots.now) state.old state.new }
{
    for root in roots {
        begin(state, block, *root);
    }
}

// A variable of a block begins: it is undefined, or was passed as a value.
fn begin(state: &mut State, block: u32, root: u32)
    ensures { Moves (begun state.old.table.now block root (slice_get state.old.table.now.variables.items root))
        state.old state.new }
{
    let table = state.table();
    if let Some(variable) = variable_at(table.tree(), root) {
        if is_own(block, variable) {
            begin_undefined(state, root);
        } else if is_passed_value(block, variable) {
            define(state, table.of_variable(root));
        }
    }
}

fn variable_at(tree: &Tree, root: u32) -> Option<Variable>
    ensures { result ≡ slice_get tree.now.variables.items root }
{
    tree.variables.get(root as usize).copied()
}

// A variable begins undefined.
fn begin_undefined(state: &mut State, root: u32)
    ensures { Moves (begun_undefined state.old.table.now root) state.old state.new }
{
    state.set_range(root as usize, Interval::EMPTY);
    let rows = state.table().of_variable(root);
    clear(state, rows);
}

// No component of some rows has a value.
fn clear(state: &mut State, span: Span)
    ensures { Moves (rows_vacant (numbers span)) state.old state.new }
{
    for row in span.first..span.end() {
        state.set_range(row, Interval::EMPTY);
    }
}

// Each component of some rows has a value.
fn define(state: &mut State, span: Span)
    ensures { Moves (rows_defined (numbers span)) state.old state.new }
{
    for row in span.first..span.end() {
        state.define(row);
    }
}

/// Whether a block declares a variable as one of its own, or as its result.
pub fn is_own(block: u32, variable: Variable) -> bool
    ensures { result ≡ is_own block variable }
{
    match variable.kind {
        VariableKind::Local => variable.block == block,
        VariableKind::Result => variable.block == block,
        VariableKind::ValueParameter => false,
        VariableKind::VariableParameter => false,
    }
}

// Whether it declares it as a value parameter.
fn is_passed_value(block: u32, variable: Variable) -> bool
    ensures { result ≡ is_passed_value block variable }
{
    match variable.kind {
        VariableKind::ValueParameter => variable.block == block,
        VariableKind::Local => false,
        VariableKind::VariableParameter => false,
        VariableKind::Result => false,
    }
}
