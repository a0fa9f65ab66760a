ghost use Rattle.std.specs.Prelude.{◌≡◌, [], ◌∷◌, ◌++◌, OnOk, IfOk, flat_map, map};
ghost use Rattle.typing.specs.Names.{all_folded};
ghost use Rattle.typing.specs.Names as spec;
ghost use Rattle.typing.specs.Routines.{typed_block};
ghost use Rattle.declarations.specs.Parts.{routine_names, texts};
ghost use Rattle.declarations.specs.Known.{names_in, names_in_groups};

use std::alloc::{AllocError, Global};
use syntax_tree::{
    Block, ConstantDefinition, FormalGroup, Heading, Name, Program, Routine, TypeDefinition,
    TypeDenoter, VariableGroup,
};
use typing::folded;

/// Names in small letters.
type Keys = Vec<Vec<u8>>;

/// The names of a program's block, in small letters: its parameters, and those that the block defines.
pub(crate) fn program_names(alloc: Global, program: &Program) -> Result<Keys, AllocError>
    ensures { IfOk result (λ keys. texts keys.items
        ≡ all_folded (program.now.parameters.items ++ (typed_block program.now.block).names)) }
{
    let mut keys = Vec::new(alloc);
    fold_names(&program.parameters, &mut keys)?;
    fold_block(&program.block, &mut keys)?;
    Ok(keys)
}

/// The names that a block defines, in small letters: its constants, its types, its variables, and its procedures and
/// functions.
pub(crate) fn block_names(alloc: Global, block: &Block) -> Result<Keys, AllocError>
    ensures { IfOk result (λ keys. texts keys.items ≡ all_folded (typed_block block.now).names) }
{
    let mut keys = Vec::new(alloc);
    fold_block(block, &mut keys)?;
    Ok(keys)
}

/// The names of formal parameters, in small letters.
pub(crate) fn formal_names(alloc: Global, groups: &[FormalGroup]) -> Result<Keys, AllocError>
    ensures { IfOk result (λ keys. texts keys.items ≡ all_folded (flat_map spec.formal_names groups.now)) }
{
    let mut keys = Vec::new(alloc);
    for group in groups {
        fold_names(&group.names, &mut keys)?;
    }
    Ok(keys)
}

// Those that a block defines.
fn fold_block(block: &Block, keys: &mut Keys) -> Result<(), AllocError>
    ensures { OnOk result
        (texts keys.new.items ≡ texts keys.old.items ++ all_folded (typed_block block.now).names) }
{
    fold_constants(&block.constants, keys)?;
    fold_types(&block.types, keys)?;
    fold_groups(&block.variables, keys)?;
    fold_routines(&block.routines, keys)
}

// Those of these constants.
fn fold_constants(definitions: &[ConstantDefinition], keys: &mut Keys) -> Result<(), AllocError>
    ensures { OnOk result
        (texts keys.new.items ≡ texts keys.old.items ++ all_folded (map (λ d. d.name) definitions.now)) }
{
    for definition in definitions {
        fold_name(&definition.name, keys)?;
    }
    Ok(())
}

// Those of these type definitions.
fn fold_types(definitions: &[TypeDefinition], keys: &mut Keys) -> Result<(), AllocError>
    ensures { OnOk result
        (texts keys.new.items ≡ texts keys.old.items ++ all_folded (flat_map spec.type_names definitions.now)) }
{
    for definition in definitions {
        fold_denoter(&definition.denoter, keys)?;
        fold_name(&definition.name, keys)?;
    }
    Ok(())
}

// Those of these variables.
fn fold_groups(groups: &[VariableGroup], keys: &mut Keys) -> Result<(), AllocError>
    ensures { OnOk result
        (texts keys.new.items ≡ texts keys.old.items ++ all_folded (flat_map spec.group_names groups.now)) }
{
    for group in groups {
        fold_denoter(&group.denoter, keys)?;
        fold_names(&group.names, keys)?;
    }
    Ok(())
}

// Those of these procedures and functions, where they are declared first.
fn fold_routines(routines: &[Routine], keys: &mut Keys) -> Result<(), AllocError>
    ensures { OnOk result
        (texts keys.new.items ≡ texts keys.old.items ++ all_folded (routine_names routines.now)) }
{
    for routine in routines {
        fold_heading(&routine.heading, keys)?;
    }
    Ok(())
}

// That of a heading, if it is the first.
fn fold_heading(heading: &Heading, keys: &mut Keys) -> Result<(), AllocError>
    ensures { OnOk result
        (texts keys.new.items ≡ texts keys.old.items ++ all_folded (spec.heading_names heading.now)) }
{
    match heading {
        Heading::Procedure { name, .. } | Heading::Function { name, .. } => fold_name(name, keys),
        Heading::Resumed { .. } => Ok(()),
    }
}

// Those that a denoter defines.
#[cycle(denoters)]
#[tactic(auto, using(typing::proofs::Written::names_of_denoters))]
fn fold_denoter(denoter: &TypeDenoter, keys: &mut Keys) -> Result<(), AllocError>
    ensures { OnOk result
        (texts keys.new.items ≡ texts keys.old.items ++ all_folded (spec.denoter_names denoter.now)) }
{
    match denoter {
        TypeDenoter::Name(_) | TypeDenoter::Subrange { .. } => Ok(()),
        TypeDenoter::Enumerated { constants } => fold_names(constants, keys),
        TypeDenoter::Array {
            indexes,
            element,
            ..
        } => {
            fold_denoters(indexes, keys)?;
            fold_denoter(element, keys)
        }
        TypeDenoter::Record {
            names,
            denoters,
            ..
        } => fold_fields(names, denoters, keys),
        TypeDenoter::Set { base, .. } => fold_denoter(base, keys),
    }
}

// Those of these denoters.
#[cycle(denoters)]
fn fold_denoters(denoters: &[TypeDenoter], keys: &mut Keys) -> Result<(), AllocError>
    ensures { OnOk result (texts keys.new.items ≡ texts keys.old.items ++ all_folded (names_in denoters.now)) }
{
    for denoter in denoters {
        fold_denoter(denoter, keys)?;
    }
    Ok(())
}

// Those of the denoters of groups of fields.
#[cycle(denoters)]
fn fold_fields(
    rows: &[Vec<Name>],
    denoters: &[TypeDenoter],
    keys: &mut Keys,
) -> Result<(), AllocError>
    ensures { OnOk result
        (texts keys.new.items ≡ texts keys.old.items ++ all_folded (names_in_groups rows.now denoters.now)) }
{
    for (_, denoter) in rows.iter().zip(denoters) {
        fold_denoter(denoter, keys)?;
    }
    Ok(())
}

// These names.
fn fold_names(names: &[Name], keys: &mut Keys) -> Result<(), AllocError>
    ensures { OnOk result (texts keys.new.items ≡ texts keys.old.items ++ all_folded names.now) }
{
    for name in names {
        fold_name(name, keys)?;
    }
    Ok(())
}

// This name.
fn fold_name(name: &Name, keys: &mut Keys) -> Result<(), AllocError>
    ensures { OnOk result (texts keys.new.items ≡ texts keys.old.items ++ all_folded (name.now ∷ [])) }
{
    let key = folded(*keys.allocator(), name.text)?;
    keys.push(key)?;
    Ok(())
}
