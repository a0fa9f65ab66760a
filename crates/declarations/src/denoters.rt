ghost use Rattle.std.specs.Prelude.{[], ◌++◌, map};
ghost use Rattle.syntax_tree.specs.Places.{fields_of};
ghost use Rattle.types.specs.Forms.{field_form};
ghost use Rattle.typing.specs.Denoters as spec;
ghost use Rattle.typing.specs.Names.{denoter_names};
ghost use Rattle.typing.specs.Outcomes.{TypingTakes, Makes};
ghost use Rattle.declarations.specs.Known.{AreKnown, names_in, names_in_groups};

use crate::Typed;
use place::Place;
use scopes::Denotation;
use syntax_tree::{Constant, Name, TypeDenoter};
use typed_tree::TypeFault;
use types::{Field, TypeForm, TypeId};
use typing::{Typer, add_fields, value_of};

/// The type that a denoter denotes (6.4.1).
#[cycle(denoters)]
#[tactic(auto, using(typing::proofs::Written::written_denoters))]
pub(crate) fn denoted_type(typer: &mut Typer, denoter: &TypeDenoter) -> Typed<TypeId>
    requires known { AreKnown (denoter_names denoter.now) typer.old.regions }
    ensures { TypingTakes (spec.denoted_type denoter.now typer.old) result typer.new }
{
    match denoter {
        TypeDenoter::Name(name) => typer.type_of_name(name),
        TypeDenoter::Enumerated { constants } => enumeration(typer, constants),
        TypeDenoter::Subrange {
            first,
            between,
            last,
        } => subrange(typer, first, *between, last),
        TypeDenoter::Array {
            packed,
            place,
            indexes,
            element,
        } => {
            typer.pass(*place);
            let indexes = index_types(typer, indexes)?;
            let element = denoted_type(typer, element)?;
            typer.arrays(*packed, *place, &indexes, element)
        }
        TypeDenoter::Record {
            packed,
            place,
            names: rows,
            denoters,
            ..
        } => {
            typer.pass(*place);
            let fields = grouped_fields(typer, rows, denoters)?;
            let packed = *packed;
            typer.add_type(*place, TypeForm::Record { packed, fields })
        }
        TypeDenoter::Set {
            packed,
            place,
            base,
        } => set_type(typer, *packed, *place, base),
    }
}

// A set type, whose base is ordinal (6.4.3.4).
#[cycle(denoters)]
#[tactic(auto, unfolding(typing::specs::Denoters::set_type))]
fn set_type(typer: &mut Typer, packed: bool, place: Place, base: &TypeDenoter) -> Typed<TypeId>
    requires known { AreKnown (denoter_names base.now) typer.old.regions }
    ensures { TypingTakes (spec.set_type packed place (spec.denoted_type base.now) typer.old) result typer.new }
{
    typer.pass(place);
    let id = index_type(typer, base)?;
    let form = typer
        .set_form(packed, id)
        .ok_or(TypeFault::Mismatch(place))?;
    typer.add_type(place, form)
}

// The index types of an array, in their order.
#[cycle(denoters)]
fn index_types(typer: &mut Typer, denoters: &[TypeDenoter]) -> Typed<Vec<TypeId>>
    requires known { AreKnown (names_in denoters.now) typer.old.regions }
    ensures { Makes (λ ids. ids.items) (λ ids. [])
        (spec.index_types (map spec.denoted_type denoters.now) typer.old) result typer.new }
{
    let mut ids = Vec::with_capacity(typer.alloc, denoters.len())?;
    for denoter in denoters {
        ids.push_reserved(index_type(typer, denoter)?);
    }
    Ok(ids)
}

// An index type: K1 at the latest token of it where it is not ordinal.
#[cycle(denoters)]
#[tactic(auto, unfolding(typing::specs::Denoters::index_type, typing::specs::Steps::latest))]
fn index_type(typer: &mut Typer, denoter: &TypeDenoter) -> Typed<TypeId>
    requires known { AreKnown (denoter_names denoter.now) typer.old.regions }
    ensures { TypingTakes (spec.index_type (spec.denoted_type denoter.now) typer.old) result typer.new }
{
    let id = denoted_type(typer, denoter)?;
    if !typer.types().is_ordinal(id) {
        return Err(TypeFault::Mismatch(typer.latest()));
    }
    Ok(id)
}

// The fields of a record, group by group: of each its type, and then its names.
#[cycle(denoters)]
fn grouped_fields(
    typer: &mut Typer,
    rows: &[Vec<Name>],
    denoters: &[TypeDenoter],
) -> Typed<Vec<Field>>
    requires known { AreKnown (names_in_groups rows.now denoters.now) typer.old.regions }
    ensures { Makes (λ fields. map field_form fields.items) (λ fields. [])
        (spec.grouped_fields [] (fields_of rows.now (map spec.denoted_type denoters.now)) typer.old) result typer.new }
{
    let mut fields = Vec::new(typer.alloc);
    for (row, denoter) in rows.iter().zip(denoters) {
        let type_id = denoted_type(typer, denoter)?;
        add_fields(typer.alloc, &mut fields, type_id, row)?;
    }
    Ok(fields)
}

// An enumerated type: its constants count from 0 (6.4.2.3).
#[tactic(auto, unfolding(typing::specs::Denoters::enumeration, typing::specs::Steps::latest))]
fn enumeration(typer: &mut Typer, names: &[Name]) -> Typed<TypeId>
    requires known { AreKnown names.now typer.old.regions }
    ensures { TypingTakes (spec.enumeration names.now typer.old) result typer.new }
{
    let place = typer.latest();
    let last = value_of(names.len().saturating_sub(1), place)?;
    let type_id = typer.add_type(place, TypeForm::Enumeration { last })?;
    declare_constants(typer, type_id, names)?;
    Ok(type_id)
}

// Its constants, in their order.
fn declare_constants(typer: &mut Typer, type_id: TypeId, names: &[Name]) -> Typed<()>
    requires known { AreKnown names.now typer.old.regions }
    ensures { TypingTakes (spec.constants_from type_id 0 names.now typer.old) result typer.new }
{
    for (number, name) in names.iter().enumerate() {
        let value = value_of(number, name.place)?;
        typer.declare(name, Denotation::Constant { value, type_id })?;
    }
    Ok(())
}

// A subrange between two constants (6.4.2.4).
#[tactic(auto, unfolding(typing::specs::Denoters::subrange))]
fn subrange(typer: &mut Typer, first: &Constant, between: Place, last: &Constant) -> Typed<TypeId>
    ensures { TypingTakes (spec.subrange first.now between last.now typer.old) result typer.new }
{
    let first = typer.ordinal_constant(first)?;
    let last = typer.ordinal_constant(last)?;
    let form = typer.between(between, first, last)?;
    typer.add_type(between, form)
}
