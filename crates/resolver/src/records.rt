//! The records of `with` statements (ISO 7185:1990, 6.8.3.10).
ghost use Rattle.std.specs.Prelude.{◌≡◌, ◌++◌, [], true, Ok, IfOk, map};
ghost use Rattle.typed_tree.specs.Accesses.{origin_of, step_of, steps_of};
ghost use Rattle.typed_tree.specs.Kinds.{is_held_record};
ghost use Rattle.typed_tree.specs.Tests.{all_hold};
ghost use Rattle.typing.specs.Passing.{after, each};
ghost use Rattle.typing.specs.Statements as spec;
ghost use Rattle.typing.specs.Statements.{written_record};
ghost use Rattle.typing.specs.Steps.{close_record};
ghost use Rattle.resolver.specs.Made.{MakesRecord, MakesRecords};

use declarations::Typed;
use expression_resolver::{access, named_variable};
use std::alloc::{AllocError, Global};
use syntax_tree::RecordVariable;
use typed_tree::{Access, Base, PathStep, Selector, WithRecord};
use typing::{OpenRecord, Typer};

/// The records of a with, each of which is opened before the next is looked up.
pub(crate) fn opened_records(
    typer: &mut Typer,
    written: &[RecordVariable],
) -> Typed<Vec<WithRecord>>
    ensures made { MakesRecords (each spec.opened (map written_record written.now) typer.old) result typer.new }
    ensures held { IfOk result (λ made. all_hold (map is_held_record made.items) ≡ true) }
{
    let mut made = Vec::with_capacity(typer.alloc, written.len())?;
    for next in written {
        made.push_reserved(opened(typer, next)?);
    }
    Ok(made)
}

// A record, which is accessed, and whose fields are names from here on: K1 at its name where it is none.
#[tactic(auto, unfolding(typing::specs::Statements::opened))]
fn opened(typer: &mut Typer, written: &RecordVariable) -> Typed<WithRecord>
    ensures made { MakesRecord (spec.opened (written_record written.now) typer.old) result typer.new }
    ensures held { IfOk result (λ made. is_held_record made ≡ true) }
{
    let variable = named_variable(typer, &written.name)?;
    let reached = access(typer, variable, &written.selectors, &written.indexes)?;
    let record = OpenRecord {
        root: reached.access.root,
        steps: way(typer.alloc, &reached.access)?,
        type_id: reached.type_id,
    };
    typer.open_record(written.name.place, record)?;
    Ok(WithRecord {
        access: reached.access,
        indexes: reached.indexes,
    })
}

// The way from a variable to what is accessed.
fn way(alloc: Global, access: &Access) -> Result<Vec<PathStep>, AllocError>
    ensures { IfOk result (λ made. made.items
        ≡ steps_of (origin_of access.now) ++ map step_of access.now.selectors.items) }
{
    let mut steps = way_to_base(alloc, access)?;
    for selector in &access.selectors {
        steps.push(step_of(*selector))?;
    }
    Ok(steps)
}

// The way to where an access begins.
fn way_to_base(alloc: Global, access: &Access) -> Result<Vec<PathStep>, AllocError>
    ensures { IfOk result (λ made. made.items ≡ steps_of (origin_of access.now)) }
{
    match &access.base {
        Base::Variable => Ok(Vec::new(alloc)),
        Base::Record { path, .. } => Vec::from_slice(alloc, path),
    }
}

// The step of a selector, without its index.
fn step_of(selector: Selector) -> PathStep
    ensures { result ≡ step_of selector }
{
    match selector {
        Selector::Element { .. } => PathStep::Element,
        Selector::Field { position, .. } => PathStep::Field(position),
    }
}

/// As many records are closed, behind the statement of their with.
pub(crate) fn close_records(typer: &mut Typer, written: &[RecordVariable])
    ensures { each (λ one. close_record) (map written_record written.now) typer.old ≡ Ok (after tt [] typer.new) }
{
    for _ in written {
        typer.close_record();
    }
}
