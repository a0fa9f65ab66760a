ghost use Rattle.std.specs.Prelude.{◌≡◌, [], true, IfOk, map};
ghost use Rattle.typed_tree.specs.Accesses.{index_count};
ghost use Rattle.typed_tree.specs.Kinds.{is_held_stmt};
ghost use Rattle.typing.specs.Expressions.{expression};
ghost use Rattle.typing_rules.specs.Denotations.{as_routine};
ghost use Rattle.typing.specs.Outcomes.{Makes};
ghost use Rattle.typing.specs.Statements as spec;
ghost use Rattle.typing.specs.View.{denoted_of};
ghost use Rattle.resolver.specs.Made.{MakesStmt, MakesTarget, result_variable};

use crate::owned::made_beside;
use declarations::Typed;
use expression_resolver::{Reached, copied, fitted, reach};
use place::Place;
use scopes::Denotation;
use syntax_tree as syntax;
use typed_tree::{Assignment, Base, Copying, Fitted, Stmt};
use typing::{DenotedVariable, Typer};
use typing_rules::as_routine;

/// An assignment: the target is accessed first, and then comes the value (6.8.2.2).
#[tactic(auto, using(crate::proofs::HeldStatements::held_assigned), unfolding(typing::specs::Statements::assignment))]
pub(crate) fn assignment(
    typer: &mut Typer,
    name: &syntax::Name,
    selectors: &[syntax::Selector],
    indexes: &[syntax::Expr],
    becomes: Place,
    value: &syntax::Expr,
) -> Typed<Stmt>
    ensures made { MakesStmt (spec.assignment name.now selectors.now (map expression indexes.now) becomes
        (expression value.now) typer.old) result typer.new }
    ensures held { IfOk result (λ made. is_held_stmt made ≡ true) }
{
    let number = typer.enter()?;
    let target = target(typer, name, selectors, indexes)?;
    if typer.types().is_structured(target.type_id) {
        typer.pass(becomes);
        let copied = copied(typer, target.type_id, becomes, value);
        let (value, value_indexes) = made_beside!(copied, target);
        return Ok(Stmt::Copy(Copying {
            number,
            becomes,
            target: target.access,
            indexes: target.indexes,
            type_id: target.type_id,
            value,
            value_indexes,
        }));
    }
    let fitted = fitted(typer, target.type_id, becomes, value);
    let Fitted { value, fits } = made_beside!(fitted, target);
    Ok(Stmt::Assign(Assignment {
        number,
        becomes,
        target: target.access,
        indexes: target.indexes,
        fits,
        value,
    }))
}

// What is accessed left of `:=`: a variable that may be changed, or a component of it.
#[tactic(auto, unfolding(typing::specs::Statements::target))]
fn target(
    typer: &mut Typer,
    name: &syntax::Name,
    selectors: &[syntax::Selector],
    indexes: &[syntax::Expr],
) -> Typed<Reached>
    ensures { MakesTarget (spec.target name.now selectors.now (map expression indexes.now) typer.old) result typer.new }
{
    let denotation = typer.find(name)?;
    let variable = target_of(typer, selectors, name.place, denotation)?;
    reach(typer, name.place, variable, selectors, indexes)
}

// The variable left of `:=` that a name at a place denotes, with these selectors behind it: the result of a function by
// the function's name alone.
#[tactic(auto, using(expression_resolver::proofs::Selecting::plain_variable))]
fn target_of(
    typer: &mut Typer,
    selectors: &[syntax::Selector],
    place: Place,
    denotation: Denotation,
) -> Typed<DenotedVariable>
    ensures made { Makes denoted_of (λ variable. [])
        (spec.target_of (as_routine denotation) selectors.now place denotation typer.old) result typer.new }
    ensures plain { IfOk result (λ variable. index_count variable.selectors.items ≡ 0) }
{
    let Some((block, _)) = as_routine(denotation) else {
        return typer.variable_of(place, denotation);
    };
    match selectors {
        [] => result_of(typer, place, block),
        [_, ..] => typer.variable_of(place, denotation),
    }
}

// The result of a function, whose block this is.
fn result_of(typer: &mut Typer, place: Place, block: u32) -> Typed<DenotedVariable>
    ensures made { Makes denoted_of (λ variable. []) (result_variable place block typer.old) result typer.new }
    ensures plain { IfOk result (λ variable. index_count variable.selectors.items ≡ 0) }
{
    let (root, type_id) = typer.function_target(place, block)?;
    Ok(DenotedVariable {
        root,
        base: Base::Variable,
        from: type_id,
        selectors: Vec::new(typer.alloc),
        type_id,
    })
}
