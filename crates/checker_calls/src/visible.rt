//! Which variables a block sees, and how it declares them (ISO 7185:1990, 6.2.2, 6.6.3).
ghost use Rattle.std.specs.Prelude.{◌≡◌, Bool};
ghost use Rattle.typed_tree.specs.WellFormed.{is_declared, is_result_kind, is_round, is_value_kind, is_visible};
ghost use Rattle.typed_tree.specs.WellFormed.{of_one, outline_of};
ghost use Rattle.typed_tree.specs.declared.tree.VariableKind.{VariableKind};
ghost use Rattle.checker_calls.specs.Names.{is_outward, is_variable_parameter};

use typed_tree::{Tree, VariableKind};

/// Whether a variable is declared in a block or round it.
pub fn is_visible(tree: &Tree, block: u32, root: u32) -> bool
    ensures { result ≡ is_visible (outline_of tree.now) block root }
{
    match tree.variables.get(root as usize) {
        None => false,
        Some(variable) => is_round(tree, block, variable.block),
    }
}

/// Whether a block is that of a number, or stands round it.
fn is_round(tree: &Tree, number: u32, block: u32) -> bool
    ensures { result ≡ is_round (outline_of tree.now) number block }
{
    match tree.blocks.get(number as usize) {
        None => false,
        Some(found) => block == number || found.heading.around.contains(&block),
    }
}

/// How a block declares a variable, if it does.
fn declared_as(tree: &Tree, block: u32, root: u32) -> Option<VariableKind>
    ensures { (is_kind : VariableKind → Bool)
        → of_one is_kind result ≡ is_declared (outline_of tree.now) block is_kind root }
{
    match tree.variables.get(root as usize) {
        Some(variable) if variable.block == block => Some(variable.kind),
        _ => None,
    }
}

/// Whether a variable is visible in a block, and the caller may know it: it is no variable of the block's own, nor its
/// result.
pub fn is_outward(tree: &Tree, block: u32, root: u32) -> bool
    ensures { result ≡ is_outward tree.now block root }
{
    is_visible(tree, block, root)
        && match declared_as(tree, block, root) {
            Some(VariableKind::Local) => false,
            Some(VariableKind::Result) => false,
            _ => true,
        }
}

/// Whether it is a variable parameter of the block.
pub fn is_variable_parameter(tree: &Tree, block: u32, root: u32) -> bool
    ensures { result ≡ is_variable_parameter tree.now block root }
{
    match declared_as(tree, block, root) {
        Some(VariableKind::VariableParameter) => true,
        _ => false,
    }
}

/// Whether it is a value parameter of the block.
pub fn is_value_parameter(tree: &Tree, block: u32, root: u32) -> bool
    ensures { result ≡ is_declared (outline_of tree.now) block is_value_kind root }
{
    match declared_as(tree, block, root) {
        Some(VariableKind::ValueParameter) => true,
        _ => false,
    }
}

/// Whether it is the block's result.
pub fn is_result(tree: &Tree, block: u32, root: u32) -> bool
    ensures { result ≡ is_declared (outline_of tree.now) block is_result_kind root }
{
    match declared_as(tree, block, root) {
        Some(VariableKind::Result) => true,
        _ => false,
    }
}
