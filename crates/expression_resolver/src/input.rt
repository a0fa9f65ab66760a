//! The functions that ask something of the input (ISO 7185:1990, 6.6.6.5).
ghost use Rattle.std.specs.Prelude.{◌≡◌, map};
ghost use Rattle.typing.specs.Expressions as spec;
ghost use Rattle.typing.specs.Outcomes.{TypingTakes};
ghost use Rattle.expression_resolver.specs.Made.{MakesTyped};

use crate::forms::only;
use crate::{Lead, TypedExpr, Value};
use place::Place;
use scopes::{File, InputFunction};
use syntax_tree::{Actual, Expr, Name, Selector};
use typed_tree::TypeFault;
use typed_tree::tree::{self, InputTest};
use types::TypeTable;
use typing::{Made, Typer};
use typing_rules::as_file;

/// The value of such a function, at its name: K8 there where input is no program parameter.
#[tactic(auto, using(crate::proofs::HeldForms::input_forms), unfolding(typing::specs::Expressions::input_value))]
pub(crate) fn input_value(
    typer: &mut Typer,
    function: InputFunction,
    place: Place,
    lead: Lead,
) -> Made<TypedExpr>
    ensures { MakesTyped (spec.input_value function place lead typer.old) result typer.new }
{
    typer.pass(place);
    typer.wants_file(File::Input, place)?;
    let site = typer.behind(lead, place)?;
    let asks = input_test(typer, function, place)?;
    let number = typer.enter()?;
    let type_id = TypeTable::BOOLEAN;
    let value = tree::Expr::Input { number, asks };
    Ok(TypedExpr {
        value: Value::Ordinal { type_id, value },
        site,
    })
}

// What it asks: eoln has a point at its name.
#[tactic(auto, unfolding(typing::specs::Expressions::input_test))]
fn input_test(typer: &mut Typer, function: InputFunction, place: Place) -> Made<InputTest>
    ensures { TypingTakes (spec.input_test function place typer.old) result typer.new }
{
    match function {
        InputFunction::Eof => Ok(InputTest::End),
        InputFunction::Eoln => {
            let point = typer.point(place)?;
            Ok(InputTest::LineEnd { point })
        }
    }
}

/// The same of a function that is called: K3 at its name where its one actual isn't the name of the file input.
#[tactic(auto, unfolding(typing::specs::Expressions::input_call))]
pub(crate) fn input_call(
    typer: &mut Typer,
    function: InputFunction,
    place: Place,
    actuals: &[Actual],
    lead: Lead,
) -> Made<TypedExpr>
    ensures { MakesTyped (spec.input_call function place (map spec.written_actual actuals.now) lead typer.old) result
        typer.new }
{
    let actual = only(place, actuals)?;
    let Some(File::Input) = named_file(typer, actual)? else {
        return Err(TypeFault::WrongParameters(place));
    };
    input_value(typer, function, place, lead)
}

/// The file that an expression names, if it is the name of one.
#[tactic(auto, using(typing::proofs::Written::written_expressions))]
pub fn named_file(typer: &mut Typer, written: &Expr) -> Made<Option<File>>
    ensures { TypingTakes ((spec.expression written.now).file typer.old) result typer.new }
{
    match written {
        Expr::Name(name) => file_of(typer, name, &[]),
        Expr::Component {
            name,
            selectors,
            ..
        } => file_of(typer, name, selectors),
        _ => Ok(None),
    }
}

// The file that a name without selectors denotes.
#[tactic(auto, unfolding(typing::specs::Expressions::file_named))]
fn file_of(typer: &mut Typer, name: &Name, selectors: &[Selector]) -> Made<Option<File>>
    ensures { TypingTakes (spec.file_named name.now selectors.now typer.old) result typer.new }
{
    match selectors {
        [] => Ok(as_file(typer.find(name)?)),
        [_, ..] => Ok(None),
    }
}
