//! What is claimed of the loops of a block (ISO 7185:1990, 6.8.3.6): each may change all that is visible there.
ghost use Rattle.std.specs.Prelude.{◌≡◌, IfOk, map};
ghost use Rattle.certificate.specs.Contents.{loop_of};
ghost use Rattle.plain_certificate.specs.Widest.{HasNumbers, block_loops, loop_with, loops_of, loops_with};
ghost use Rattle.checker_calls.specs.Names.{stands_in};
ghost use Rattle.std.specs.Prelude.{slice_get};

use crate::roots::{count, visible_roots};
use certificate::LoopClaims;
use std::alloc::{AllocError, Global};
use typed_tree::Tree;

/// The claims on the loops of a block, by their numbers.
pub(crate) fn block_loops(
    alloc: Global,
    tree: &Tree,
    block: u32,
) -> Result<Vec<LoopClaims>, AllocError>
    requires { HasNumbers tree.now }
    ensures { IfOk result (λ loops. map loop_of loops.items ≡ block_loops tree.now block) }
{
    let roots = visible_roots(alloc, tree, block)?;
    if roots.is_empty() {
        return Ok(Vec::new(alloc));
    }
    loops_with(alloc, &roots, &loops_of(alloc, tree, block)?)
}

/// The loops of a block.
fn loops_of(alloc: Global, tree: &Tree, block: u32) -> Result<Vec<u32>, AllocError>
    requires { HasNumbers tree.now }
    ensures { IfOk result (λ numbers. numbers.items ≡ loops_of tree.now block) }
{
    (0..count(tree.loops.len()))
        .filter(|number| stands_in(tree, block, *number))
        .collect(alloc)
}

fn stands_in(tree: &Tree, block: u32, number: u32) -> bool
    ensures { result ≡ stands_in block (slice_get tree.now.loops.items number) }
{
    match tree.loops.get(number as usize) {
        None => false,
        Some(row) => row.block == block,
    }
}

/// Claims on loops that change these variables.
fn loops_with(
    alloc: Global,
    roots: &Vec<u32>,
    numbers: &[u32],
) -> Result<Vec<LoopClaims>, AllocError>
    ensures { IfOk result (λ loops. map loop_of loops.items ≡ map (loop_with roots.now.items) numbers.now) }
{
    let mut loops = Vec::new(alloc);
    for number in numbers {
        loops.push(LoopClaims {
            number: *number,
            changes: roots.clone()?,
            facts: Vec::new(alloc),
        })?;
    }
    Ok(loops)
}
