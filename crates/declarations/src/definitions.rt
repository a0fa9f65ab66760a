//! The constants, the types and the variables of a block (ISO 7185:1990, 6.3, 6.4, 6.5.1).
ghost use Rattle.std.specs.Prelude.{◌≡◌};
ghost use Rattle.scopes.specs.Scopes.{Knows};
ghost use Rattle.typing.specs.Names.{folded, group_names, type_names};
ghost use Rattle.typing.specs.Outcomes.{TypingTakes};
ghost use Rattle.typing.specs.Passing.{each};
ghost use Rattle.typing.specs.Routines as spec;
ghost use Rattle.typing.specs.Routines.{typed_block};
ghost use Rattle.declarations.specs.Known.{AreKnown, AreKnownDefinitions, AreKnownGroups, AreKnownTypes};
ghost use Rattle.declarations.specs.Parts.{block_declarations};

use crate::Typed;
use crate::denoters::denoted_type;
use scopes::Denotation;
use syntax_tree::{Block, ConstantDefinition, Name, TypeDefinition, VariableGroup};
use types::TypeId;
use typing::Typer;

/// Passes the constants, the types and the variables of a block, in the order of the text, or tells the first rule that
/// they break, with its place (S1 to S3, K1, Y1, Y2, Y3).
pub fn declare(typer: &mut Typer, block: &Block) -> Typed<()>
    requires known { AreKnown (typed_block block.now).names typer.old.regions }
    ensures { TypingTakes (block_declarations block.now typer.old) result typer.new }
{
    declare_constants(typer, &block.constants)?;
    declare_types(typer, &block.types)?;
    declare_groups(typer, &block.variables)
}

// Passes the constant definitions, in the order of the text.
fn declare_constants(typer: &mut Typer, definitions: &[ConstantDefinition]) -> Typed<()>
    requires known { AreKnownDefinitions definitions.now typer.old.regions }
    ensures { TypingTakes (each spec.definition definitions.now typer.old) result typer.new }
{
    for definition in definitions {
        declare_constant(typer, definition)?;
    }
    Ok(())
}

// A constant: its value (S2 where that names the constant), and then its name (S1 where it comes twice).
#[tactic(auto, unfolding(typing::specs::Routines::definition))]
fn declare_constant(typer: &mut Typer, definition: &ConstantDefinition) -> Typed<()>
    requires known { Knows typer.old.regions (folded definition.now.name.text.now) }
    ensures { TypingTakes (spec.definition definition.now typer.old) result typer.new }
{
    let denotation = typer.constant(&definition.value)?;
    typer.declare(&definition.name, denotation)
}

// Passes the type definitions, in the order of the text.
fn declare_types(typer: &mut Typer, definitions: &[TypeDefinition]) -> Typed<()>
    requires known { AreKnownTypes definitions.now typer.old.regions }
    ensures { TypingTakes (each spec.type_definition definitions.now typer.old) result typer.new }
{
    for definition in definitions {
        declare_type(typer, definition)?;
    }
    Ok(())
}

// A type: its denoter (S2 where that names the type), and then its name (S1 where it comes twice).
#[tactic(auto, unfolding(typing::specs::Routines::type_definition))]
fn declare_type(typer: &mut Typer, definition: &TypeDefinition) -> Typed<()>
    requires known { AreKnown (type_names definition.now) typer.old.regions }
    ensures { TypingTakes (spec.type_definition definition.now typer.old) result typer.new }
{
    let type_id = denoted_type(typer, &definition.denoter)?;
    typer.declare(&definition.name, Denotation::TypeName(type_id))
}

// Passes the variables, group by group in the order of the text.
fn declare_groups(typer: &mut Typer, groups: &[VariableGroup]) -> Typed<()>
    requires known { AreKnownGroups groups.now typer.old.regions }
    ensures { TypingTakes (each spec.group groups.now typer.old) result typer.new }
{
    for group in groups {
        declare_group(typer, group)?;
    }
    Ok(())
}

// Variables that are declared together: first their type.
#[tactic(auto, unfolding(typing::specs::Routines::group))]
fn declare_group(typer: &mut Typer, group: &VariableGroup) -> Typed<()>
    requires known { AreKnown (group_names group.now) typer.old.regions }
    ensures { TypingTakes (spec.group group.now typer.old) result typer.new }
{
    let type_id = denoted_type(typer, &group.denoter)?;
    declare_variables(typer, type_id, &group.names)
}

// Variables of a type.
fn declare_variables(typer: &mut Typer, type_id: TypeId, names: &[Name]) -> Typed<()>
    requires known { AreKnown names.now typer.old.regions }
    ensures { TypingTakes (each (spec.local type_id) names.now typer.old) result typer.new }
{
    for name in names {
        typer.local(type_id, name)?;
    }
    Ok(())
}
