ghost use Rattle.std.specs.Prelude.{◌≡◌, [], ◌∷◌, flat_map};
ghost use Rattle.syntax_tree.specs.declared.Heading.TheVariants.{Resumed};
ghost use Rattle.typing.specs.Names.{formal_names, heading_names};
ghost use Rattle.typing.specs.Outcomes.{TypingTakes, Makes};
ghost use Rattle.typing.specs.Routines as spec;
ghost use Rattle.declarations.specs.Parts.{begun_of, heading_inside, heading_of, name_of_result};
ghost use Rattle.declarations.specs.Known.{AreKnown};

use crate::Typed;
use crate::names::formal_names;
use place::Place;
use scopes::Denotation;
use syntax_tree::{FormalGroup, Heading, Name, Passing};
use typed_tree::{TypeFault, VariableKind};
use types::TypeId;
use typing::Typer;

/// A routine whose block, or whose directive forward, comes next.
#[derive(Clone, Copy)]
pub struct BegunRoutine {
    /// The number of its block.
    pub number: u32,
    /// Its heading is the first.
    pub is_first: bool,
}

/// Passes the heading of a procedure or of a function (6.6.1, 6.6.2): S4 at its name where it is nested too deep.
pub fn begin_routine(typer: &mut Typer, heading: &Heading) -> Typed<BegunRoutine>
    requires known { AreKnown (heading_names heading.now) typer.old.regions }
    ensures { Makes begun_of (λ made. []) (spec.headed heading.now typer.old) result typer.new }
{
    match heading {
        Heading::Procedure { name, formals } => begin_procedure(typer, name, formals),
        Heading::Function {
            name,
            formals,
            result,
        } => begin(typer, name, formals, Some(result)),
        Heading::Resumed { name } => resume(typer, name),
    }
}

// A procedure: one without parameters may be one that waits for its block.
fn begin_procedure(typer: &mut Typer, name: &Name, formals: &[FormalGroup]) -> Typed<BegunRoutine>
    requires known { AreKnown (name.now ∷ []) typer.old.regions }
    ensures { Makes begun_of (λ made. []) (spec.procedure_headed name.now formals.now typer.old) result typer.new }
{
    if !formals.is_empty() {
        return begin(typer, name, formals, None);
    }
    match typer.waiting_for(false, name)? {
        Some(number) => Ok(BegunRoutine {
            number,
            is_first: false,
        }),
        None => begin(typer, name, &[], None),
    }
}

// A function that waits for its block: K1 at its name where there is none.
fn resume(typer: &mut Typer, name: &Name) -> Typed<BegunRoutine>
    ensures { Makes begun_of (λ made. []) (spec.headed (Resumed name.now) typer.old) result typer.new }
{
    let number = typer
        .waiting_for(true, name)?
        .ok_or(TypeFault::Mismatch(name.place))?;
    Ok(BegunRoutine {
        number,
        is_first: false,
    })
}

// A routine is declared, by the name of its result's type, if it is a function.
#[tactic(auto, unfolding(typing::specs::Routines::new_heading))]
fn begin(
    typer: &mut Typer,
    name: &Name,
    groups: &[FormalGroup],
    of_result: Option<&Name>,
) -> Typed<BegunRoutine>
    requires known { AreKnown (name.now ∷ []) typer.old.regions }
    ensures { Makes begun_of (λ made. []) (spec.begun name.now groups.now (name_of_result of_result.entry) typer.old)
        result typer.new }
{
    typer.may_nest(name.place)?;
    let number = typer.next_block(name.place)?;
    let routine = Denotation::Routine {
        block: number,
        is_function: of_result.is_some(),
    };
    typer.declare(name, routine)?;
    heading(typer, number, name.place, groups, of_result)?;
    Ok(BegunRoutine {
        number,
        is_first: true,
    })
}

// A heading: first its types, and then its result and its parameters.
fn heading(
    typer: &mut Typer,
    number: u32,
    place: Place,
    groups: &[FormalGroup],
    of_result: Option<&Name>,
) -> Typed<()>
    ensures { TypingTakes (heading_of number place groups.now (name_of_result of_result.entry) typer.old) result
        typer.new }
{
    let types = group_types(typer, groups)?;
    let result_id = type_of_result(typer, of_result)?;
    heading_inside(typer, number, place, groups, &types, result_id)
}

// The types of groups of formal parameters.
fn group_types(typer: &mut Typer, groups: &[FormalGroup]) -> Typed<Vec<TypeId>>
    ensures { Makes (λ ids. ids.items) (λ ids. []) (spec.group_types groups.now typer.old) result typer.new }
{
    let mut types = Vec::with_capacity(typer.alloc, groups.len())?;
    for group in groups {
        types.push_reserved(typer.type_of_name(&group.type_name)?);
    }
    Ok(types)
}

// The type of a result, if there is one.
fn type_of_result(typer: &mut Typer, of_result: Option<&Name>) -> Typed<Option<TypeId>>
    ensures { TypingTakes (spec.type_of_result (name_of_result of_result.entry) typer.old) result typer.new }
{
    match of_result {
        None => Ok(None),
        Some(name) => Ok(Some(result_type(typer, name)?)),
    }
}

// The type of a result is ordinal: K1 at its name where it isn't.
#[tactic(auto, unfolding(typing::specs::Routines::result_type))]
fn result_type(typer: &mut Typer, name: &Name) -> Typed<TypeId>
    ensures { TypingTakes (spec.result_type name.now typer.old) result typer.new }
{
    let id = typer.type_of_name(name)?;
    if !typer.types().is_ordinal(id) {
        return Err(TypeFault::Mismatch(name.place));
    }
    Ok(id)
}

// The result and the parameters of a heading, in a region of its own.
fn heading_inside(
    typer: &mut Typer,
    number: u32,
    place: Place,
    groups: &[FormalGroup],
    types: &[TypeId],
    result_id: Option<TypeId>,
) -> Typed<()>
    ensures { TypingTakes (heading_inside number place groups.now types.now result_id typer.old) result typer.new }
{
    let cells = typer.begin_heading();
    let root = typer.result(number, place, result_id)?;
    let names = formal_names(typer.alloc, groups)?;
    typer.open_block(&names)?;
    let roots = parameters(typer, number, groups, types)?;
    typer.end_heading(cells, roots, root)
}

// The formal parameters of a block, by their roots.
fn parameters(
    typer: &mut Typer,
    number: u32,
    groups: &[FormalGroup],
    types: &[TypeId],
) -> Typed<Vec<u32>>
    requires known { AreKnown (flat_map formal_names groups.now) typer.old.regions }
    ensures { Makes (λ roots. roots.items) (λ roots. []) (spec.parameters number groups.now types.now typer.old) result
        typer.new }
{
    let mut roots = Vec::new(typer.alloc);
    for (group, type_id) in groups.iter().zip(types) {
        let kind = parameter_kind(group.by);
        let mut own = parameters_named(typer, number, kind, *type_id, &group.names)?;
        roots.append(&mut own)?;
    }
    Ok(roots)
}

// Formal parameters that are declared together.
fn parameters_named(
    typer: &mut Typer,
    number: u32,
    kind: VariableKind,
    type_id: TypeId,
    names: &[Name],
) -> Typed<Vec<u32>>
    requires known { AreKnown names.now typer.old.regions }
    ensures { Makes (λ roots. roots.items) (λ roots. []) (spec.parameters_named number kind type_id names.now typer.old)
        result typer.new }
{
    let mut roots = Vec::with_capacity(typer.alloc, names.len())?;
    for name in names {
        roots.push_reserved(typer.variable(number, kind, type_id, name)?);
    }
    Ok(roots)
}

// How a formal parameter is declared (6.6.3).
fn parameter_kind(by: Passing) -> VariableKind
    ensures { result ≡ spec.parameter_kind by }
{
    match by {
        Passing::Value => VariableKind::ValueParameter,
        Passing::Variable => VariableKind::VariableParameter,
    }
}
