//! Variables by their root numbers: those that a certificate may name of a block (ISO 7185:1990, 6.2.2, 6.6.3).
ghost use Rattle.std.specs.Prelude.{◌≡◌, ◌↔◌, IfOk, IsTrue};
ghost use Rattle.plain_certificate.specs.Widest.{outward_roots, paired_roots, parameters_of, visible_roots};
ghost use Rattle.plain_certificate.specs.Widest.{HasNumbers, HasNumbersFor, may_pair};

use checker_calls::{is_outward, is_result, is_value_parameter, is_variable_parameter, is_visible};
use std::alloc::{AllocError, Global};
use typed_tree::Tree;

/// How many numbers a certificate has for variables, loops and blocks: those up to 999,999.
const NUMBERS: usize = 1_000_000;

/// Whether a certificate has a number for each variable, loop and block of a program.
pub(crate) fn has_numbers(tree: &Tree) -> bool
    ensures { IsTrue result ↔ HasNumbers tree.now }
{
    tree.variables.len() <= NUMBERS && tree.loops.len() <= NUMBERS && tree.blocks.len() <= NUMBERS
}

/// How many items a table has, for each of which a certificate has a number.
pub(crate) fn count(length: usize) -> u32
    requires { HasNumbersFor length }
    ensures { result ≡ length }
{
    length as u32
}

/// The variables that are visible in a block.
pub(crate) fn visible_roots(alloc: Global, tree: &Tree, block: u32) -> Result<Vec<u32>, AllocError>
    requires { HasNumbers tree.now }
    ensures { IfOk result (λ roots. roots.items ≡ visible_roots tree.now block) }
{
    (0..count(tree.variables.len()))
        .filter(|root| is_visible(tree, block, *root))
        .collect(alloc)
}

/// Those that its callers may know.
pub(crate) fn outward_roots(alloc: Global, tree: &Tree, block: u32) -> Result<Vec<u32>, AllocError>
    requires { HasNumbers tree.now }
    ensures { IfOk result (λ roots. roots.items ≡ outward_roots tree.now block) }
{
    (0..count(tree.variables.len()))
        .filter(|root| is_outward(tree, block, *root))
        .collect(alloc)
}

/// Its variable parameters.
pub(crate) fn parameters_of(alloc: Global, tree: &Tree, block: u32) -> Result<Vec<u32>, AllocError>
    requires { HasNumbers tree.now }
    ensures { IfOk result (λ roots. roots.items ≡ parameters_of tree.now block) }
{
    (0..count(tree.variables.len()))
        .filter(|root| is_variable_parameter(tree, block, *root))
        .collect(alloc)
}

/// What may be in a pair.
pub(crate) fn paired_roots(alloc: Global, tree: &Tree, block: u32) -> Result<Vec<u32>, AllocError>
    requires { HasNumbers tree.now }
    ensures { IfOk result (λ roots. roots.items ≡ paired_roots tree.now block) }
{
    (0..count(tree.variables.len()))
        .filter(|root| may_pair(tree, block, *root))
        .collect(alloc)
}

/// Whether a variable is a variable parameter of a block, or one round it.
fn may_pair(tree: &Tree, block: u32, root: u32) -> bool
    ensures { result ≡ may_pair tree.now block root }
{
    is_variable_parameter(tree, block, root)
        || is_outward(tree, block, root) && !is_value_parameter(tree, block, root)
}
