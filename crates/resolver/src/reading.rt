//! What is read of the input (ISO 7185:1990, 6.9.1, 6.9.2).
ghost use Rattle.std.specs.Prelude.{◌≡◌, true, IfOk, map};
ghost use Rattle.typed_tree.specs.Kinds.{is_held_read, is_held_stmt};
ghost use Rattle.typed_tree.specs.Tests.{all_hold};
ghost use Rattle.typing.specs.Expressions.{expression, read_variable, written_actual};
ghost use Rattle.typing.specs.Outcomes.{TypingTakes};
ghost use Rattle.typing.specs.Passing.{each};
ghost use Rattle.typing.specs.Statements as spec;
ghost use Rattle.resolver.specs.Made.{MakesRead, MakesReads, MakesStmt};

use crate::calls::parameters_of;
use crate::owned::made_beside;
use declarations::Typed;
use expression_resolver::{access, first_place, named_variable};
use place::Place;
use scopes::RequiredProcedure;
use syntax_tree::{Actual, Expr, Name, Selector};
use typed_tree::{ReadVariable, Reading, Stmt, TypeFault};
use typing::Typer;
use typing_rules::read_as;

/// A read or readln.
#[tactic(auto, using(crate::proofs::Branches::made_read), unfolding(typing::specs::Statements::read))]
pub(crate) fn read(
    typer: &mut Typer,
    name: &Name,
    actuals: &[Actual],
    procedure: RequiredProcedure,
) -> Typed<Stmt>
    ensures made { MakesStmt (spec.read name.now (map written_actual actuals.now) procedure typer.old) result
        typer.new }
    ensures held { IfOk result (λ made. is_held_stmt made ≡ true) }
{
    let line = line_point(typer, name.place, procedure.ends_line)?;
    let number = typer.enter()?;
    let parameters = parameters_of(typer, name.place, procedure, actuals)?;
    Ok(Stmt::Read(Reading {
        number,
        name: name.place,
        variables: read_parameters(typer, parameters)?,
        line,
    }))
}

// The point at which a readln wants a line end, at its name.
#[tactic(auto, unfolding(typing::specs::Statements::line_point))]
fn line_point(typer: &mut Typer, place: Place, ends_line: bool) -> Typed<Option<u32>>
    ensures { TypingTakes (spec.line_point place ends_line typer.old) result typer.new }
{
    if !ends_line {
        return Ok(None);
    }
    Ok(Some(typer.point(place)?))
}

// Variables that are read, one after another.
fn read_parameters(typer: &mut Typer, written: &[Actual]) -> Typed<Vec<ReadVariable>>
    ensures made { MakesReads (each spec.read_parameter (map written_actual written.now) typer.old) result typer.new }
    ensures held { IfOk result (λ made. all_hold (map is_held_read made.items) ≡ true) }
{
    let mut made = Vec::with_capacity(typer.alloc, written.len())?;
    for next in written {
        made.push_reserved(read_parameter(typer, next)?);
    }
    Ok(made)
}

// A variable that is read, which has no width: K2 at the first token of what is none.
#[tactic(auto, using(crate::proofs::Readings::read_forms), unfolding(typing::specs::Statements::read_parameter))]
fn read_parameter(typer: &mut Typer, written: &Actual) -> Typed<ReadVariable>
    ensures made { MakesRead (spec.read_parameter (written_actual written.now) typer.old) result typer.new }
    ensures held { IfOk result (λ made. is_held_read made ≡ true) }
{
    let place = first_place(&written.value);
    if written.width.is_some() {
        return Err(TypeFault::WrongParameters(place));
    }
    match &written.value {
        Expr::Name(name) => read_access(typer, name, &[], &[]),
        Expr::Component {
            name,
            selectors,
            indexes,
        } => read_access(typer, name, selectors, indexes),
        _ => Err(TypeFault::NotVariable(place)),
    }
}

// What is accessed and read, at a point at its first token.
#[tactic(auto, unfolding(typing::specs::Expressions::read_variable))]
fn read_access(
    typer: &mut Typer,
    name: &Name,
    selectors: &[Selector],
    indexes: &[Expr],
) -> Typed<ReadVariable>
    ensures made { MakesRead (read_variable name.now selectors.now (map expression indexes.now) typer.old) result
        typer.new }
    ensures held { IfOk result (λ made. is_held_read made ≡ true) }
{
    let variable = named_variable(typer, name)?;
    typer.may_change(name.place, variable.root)?;
    let point = typer.point(name.place)?;
    let reached = access(typer, variable, selectors, indexes)?;
    let read = read_as(typer.types(), name.place, reached.type_id);
    let (reads, range) = made_beside!(read, reached);
    Ok(ReadVariable {
        access: reached.access,
        indexes: reached.indexes,
        reads,
        point,
        range,
    })
}
