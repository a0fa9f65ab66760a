ghost use Rattle.std.specs.Prelude.{◌≡◌, true, Ok, Err, Some, None, IfOk, MatchResult, map, option_map};
ghost use Rattle.typed_tree.specs.Kinds.{is_held_parameter, is_held_stmt, is_held_width, is_held_written};
ghost use Rattle.typed_tree.specs.Kinds.{is_ordinal_expr};
ghost use Rattle.typed_tree.specs.Tests.{all_hold};
ghost use Rattle.typed_tree.specs.Look.{look_expr};
ghost use Rattle.typed_tree.specs.declared.fault.TypeFault.TheVariants.{Mismatch};
ghost use Rattle.typing.specs.Passing.{each};
ghost use Rattle.typing.specs.Expressions.{expression, written_actual};
ghost use Rattle.typing.specs.Statements as spec;
ghost use Rattle.typing_rules.specs.declared.typed.TypedValue.TheVariants.{Ordinal};
ghost use Rattle.expression_resolver.specs.Made.{typed_of};
ghost use Rattle.expression_resolver.specs.Values.{look_value, value_of};
ghost use Rattle.resolver.specs.Made.{MakesStmt, MakesParameter, MakesParameters, MakesWidth, MakesOwnWidth};
ghost use Rattle.resolver.specs.Made.{MakesActuals, IsWrittenAs};

use crate::owned::made_beside;
use crate::reading::read;
use declarations::Typed;
use expression_resolver::{TypedExpr, expression, first_place, named_file, routine_call};
use place::Place;
use scopes::{Denotation, File, RequiredProcedure};
use syntax_tree as syntax;
use typed_tree::{
    ProcedureCall, SiteKind, Stmt, TypeFault, Width, WriteParameter, Writing, Written,
};
use types::{TypeId, TypeTable};
use typing::Typer;
use typing_rules::{TypedValue, as_procedure, as_routine, representation};

/// The call of a procedure.
#[tactic(auto, unfolding(typing::specs::Statements::procedure_call))]
pub(crate) fn procedure_call(
    typer: &mut Typer,
    name: &syntax::Name,
    actuals: &[syntax::Actual],
) -> Typed<Stmt>
    ensures made { MakesStmt (spec.procedure_call name.now (map written_actual actuals.now) typer.old) result
        typer.new }
    ensures held { IfOk result (λ made. is_held_stmt made ≡ true) }
{
    let denotation = typer.find(name)?;
    match as_routine(denotation) {
        None => required_call(typer, denotation, name, actuals),
        Some((callee, is_function)) => declared_call(typer, callee, is_function, name, actuals),
    }
}

// The call of a required procedure: K8 at its name where its file is no program parameter.
#[tactic(auto, unfolding(typing::specs::Statements::required_call, typing::specs::Statements::file_call))]
fn required_call(
    typer: &mut Typer,
    denotation: Denotation,
    name: &syntax::Name,
    actuals: &[syntax::Actual],
) -> Typed<Stmt>
    ensures made { MakesStmt (spec.required_call denotation name.now (map written_actual actuals.now) typer.old) result
        typer.new }
    ensures held { IfOk result (λ made. is_held_stmt made ≡ true) }
{
    let procedure = as_procedure(name.place, denotation)?;
    typer.wants_file(procedure.file, name.place)?;
    match procedure.file {
        File::Input => read(typer, name, actuals, procedure),
        File::Output => write(typer, name, actuals, procedure),
    }
}

// The call of a procedure that a program declares (6.8.2.3): K3 at the name of a function.
#[tactic(auto, using(crate::proofs::HeldStatements::held_procedure_call))]
fn declared_call(
    typer: &mut Typer,
    callee: u32,
    is_function: bool,
    name: &syntax::Name,
    actuals: &[syntax::Actual],
) -> Typed<Stmt>
    ensures made { MakesStmt (spec.declared_call callee is_function name.now (map written_actual actuals.now)
        typer.old) result typer.new }
    ensures held { IfOk result (λ made. is_held_stmt made ≡ true) }
{
    if is_function {
        return Err(TypeFault::WrongParameters(name.place));
    }
    let made = routine_call(typer, false, callee, name.place, actuals)?;
    Ok(Stmt::Call(ProcedureCall {
        call: made.call,
        actuals: made.actuals,
    }))
}

// A write or writeln.
#[tactic(auto, using(crate::proofs::Branches::made_write), unfolding(typing::specs::Statements::write))]
fn write(
    typer: &mut Typer,
    name: &syntax::Name,
    actuals: &[syntax::Actual],
    procedure: RequiredProcedure,
) -> Typed<Stmt>
    ensures made { MakesStmt (spec.write name.now (map written_actual actuals.now) procedure typer.old) result
        typer.new }
    ensures held { IfOk result (λ made. is_held_stmt made ≡ true) }
{
    let number = typer.enter()?;
    let values = parameters_of(typer, name.place, procedure, actuals)?;
    Ok(Stmt::Write(Writing {
        number,
        name: name.place,
        parameters: parameters(typer, values)?,
        ends_line: procedure.ends_line,
    }))
}

/// The parameters of a read or a write behind its file, which may be named first: K3 at the call's name where there are
/// none, unless it ends the line.
#[tactic(auto, unfolding(typing::specs::Statements::parameters_of))]
pub(crate) fn parameters_of<'e, 'a>(
    typer: &mut Typer,
    place: Place,
    procedure: RequiredProcedure,
    actuals: &'e [syntax::Actual<'a>],
) -> Typed<&'e [syntax::Actual<'a>]>
    ensures { MakesActuals (spec.parameters_of place procedure (map written_actual actuals.now) typer.old) result
        typer.new }
{
    let parameters = without_file(typer, procedure.file, place, actuals)?;
    has_parameters(place, procedure, parameters)?;
    Ok(parameters)
}

// A read or a write has a parameter; a readln or a writeln needs none.
fn has_parameters(
    place: Place,
    procedure: RequiredProcedure,
    parameters: &[syntax::Actual],
) -> Typed<()>
    ensures { result ≡ spec.has_parameters place procedure (map written_actual parameters.now) }
{
    if parameters.is_empty() && !procedure.ends_line {
        return Err(TypeFault::WrongParameters(place));
    }
    Ok(())
}

// The parameters behind the file: K3 at the call's name where another one is named. A width makes the first a value.
#[tactic(auto, using(crate::proofs::FileParameters::first_forms), unfolding(typing::specs::Statements::without_file))]
fn without_file<'e, 'a>(
    typer: &mut Typer,
    wanted: File,
    place: Place,
    actuals: &'e [syntax::Actual<'a>],
) -> Typed<&'e [syntax::Actual<'a>]>
    ensures { MakesActuals (spec.without_file wanted place (map written_actual actuals.now) typer.old) result
        typer.new }
{
    let Some((first, rest)) = actuals.split_first() else {
        return Ok(actuals);
    };
    if first.width.is_some() {
        return Ok(actuals);
    }
    let Some(named) = named_file(typer, &first.value)? else {
        return Ok(actuals);
    };
    match (wanted, named) {
        (File::Input, File::Input) | (File::Output, File::Output) => Ok(rest),
        (File::Input, File::Output) | (File::Output, File::Input) => {
            Err(TypeFault::WrongParameters(place))
        }
    }
}

// Values that are written, one after another.
fn parameters(typer: &mut Typer, values: &[syntax::Actual]) -> Typed<Vec<WriteParameter>>
    ensures made { MakesParameters (each spec.parameter (map written_actual values.now) typer.old) result typer.new }
    ensures held { IfOk result (λ made. all_hold (map is_held_parameter made.items) ≡ true) }
{
    let mut parameters = Vec::with_capacity(typer.alloc, values.len())?;
    for value in values {
        parameters.push_reserved(parameter(typer, value)?);
    }
    Ok(parameters)
}

// A value that is written, and then its width.
#[tactic(auto, using(typing::proofs::Written::typing_actual), unfolding(typing::specs::Statements::parameter))]
fn parameter(typer: &mut Typer, written: &syntax::Actual) -> Typed<WriteParameter>
    ensures made { MakesParameter (spec.parameter (written_actual written.now) typer.old) result typer.new }
    ensures held { IfOk result (λ made. is_held_parameter made ≡ true) }
{
    let place = first_place(&written.value);
    let made = expression(typer, &written.value, None)?;
    let value = written_value(typer, made, place)?;
    let width = made_beside!(width(typer, &written.width), value);
    Ok(WriteParameter { value, width })
}

// What is written: an ordinal, as its type wants it, or a string.
fn written_value(typer: &Typer, made: TypedExpr, place: Place) -> Typed<Written>
    ensures made { MatchResult result
        (IsWrittenAs (spec.written_as typer.now.types (typed_of made)) (look_value made.value))
        (λ why. (spec.written_as typer.now.types (typed_of made) ≡ None) × (why ≡ Mismatch place)) }
    ensures held { IfOk result (λ made. is_held_written made ≡ true) }
{
    match made.typed().value {
        TypedValue::Ordinal(type_id) => written_ordinal(typer, made, type_id, place),
        TypedValue::Text { type_id, .. } | TypedValue::Whole { type_id, .. }
            if typer.types().is_string(type_id) => {
            let (value, indexes) = made.into_whole(typer.alloc);
            Ok(Written::String { value, indexes })
        }
        _ => {
            drop(made);
            Err(TypeFault::Mismatch(place))
        }
    }
}

// An ordinal of a type that is written.
fn written_ordinal(typer: &Typer, made: TypedExpr, type_id: TypeId, place: Place) -> Typed<Written>
    requires ordinal { value_of made.value ≡ Ordinal type_id }
    ensures made { MatchResult result
        (IsWrittenAs (spec.written_as typer.now.types (typed_of made)) (look_value made.value))
        (λ why. (spec.written_as typer.now.types (typed_of made) ≡ None) × (why ≡ Mismatch place)) }
    ensures held { IfOk result (λ made. is_held_written made ≡ true) }
{
    let Some(representation) = representation(typer.types(), type_id) else {
        drop(made);
        return Err(TypeFault::Mismatch(place));
    };
    let value = made.into_scalar();
    Ok(Written::Ordinal {
        value,
        representation,
    })
}

// The width of a value, if there is one.
#[tactic(auto, unfolding(typing::specs::Statements::width))]
fn width(typer: &mut Typer, written: &Option<syntax::Expr>) -> Typed<Option<Width>>
    ensures made { MakesWidth (spec.width (option_map expression written.now) typer.old) result typer.new }
    ensures held { IfOk result (λ made. is_held_width made ≡ true) }
{
    match written {
        None => Ok(None),
        Some(written) => Ok(Some(total_width(typer, written)?)),
    }
}

// A width, which is an integer. Its site is the leading one.
#[tactic(auto, unfolding(typing::specs::Statements::width))]
fn total_width(typer: &mut Typer, written: &syntax::Expr) -> Typed<Width>
    ensures made { MakesOwnWidth (spec.width (Some (expression written.now)) typer.old) result typer.new }
    ensures held { IfOk result (λ made. is_ordinal_expr made.value ≡ true) }
{
    let made = expression(typer, written, Some(SiteKind::Width))?;
    measured(made, first_place(written))
}

// An expression as a width: K1 at its place where it is no integer.
fn measured(made: TypedExpr, place: Place) -> Typed<Width>
    ensures made { MatchResult result
        (λ width. (spec.measured place (typed_of made) ≡ Ok width.site)
        × (look_value made.value ≡ look_expr width.value))
        (λ why. spec.measured place (typed_of made) ≡ Err why) }
    ensures held { IfOk result (λ width. is_ordinal_expr width.value ≡ true) }
{
    let Some(site) = made.site else {
        drop(made);
        return Err(TypeFault::Mismatch(place));
    };
    let value = made.of(TypeTable::INTEGER, place)?;
    Ok(Width { value, site })
}
