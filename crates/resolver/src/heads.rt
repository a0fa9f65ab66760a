ghost use Rattle.std.specs.Prelude.{◌≡◌, ℕ, true, IfOk};
ghost use Rattle.types.specs.Types.{kind_of};
ghost use Rattle.typed_tree.specs.declared.tree.Scalar.TheVariants.{Ordinal};
ghost use Rattle.typed_tree.specs.Kinds.{is_held_stmt, is_ordinal_expr};
ghost use Rattle.typed_tree.specs.Look.{Empty};
ghost use Rattle.typing.specs.Expressions.{expression};
ghost use Rattle.typing.specs.Statements as spec;
ghost use Rattle.typing.specs.Steps.{enter_as};
ghost use Rattle.expression_resolver.specs.Values.{AreTestedAlike, tested_as};
ghost use Rattle.resolver.specs.Made.{MakesBound, MakesStmt, MakesCaseHead, MakesCondition, MakesIfHead, MakesForHead};

use crate::owned::made_beside;
use declarations::Typed;
use expression_resolver::{expression, first_place, fitted};
use place::Place;
use syntax_tree as syntax;
use typed_tree::{CaseHead, Expr, Fitted, ForHead, SiteKind, Stmt, TypeFault};
use types::{TypeId, TypeTable};
use typing::Typer;
use typing_rules::{as_control, ordinal_of, way};

/// An empty statement (6.8.2.1).
#[tactic(auto, using(typed_tree::proofs::Looks::look_empty, crate::proofs::HeldStatements::held_empty))]
pub(crate) fn empty(typer: &mut Typer) -> Typed<Stmt>
    ensures made { MakesStmt (enter_as Empty typer.old) result typer.new }
    ensures held { IfOk result (λ made. is_held_stmt made ≡ true) }
{
    let number = typer.enter()?;
    Ok(Stmt::Empty { number })
}

/// An if as far as its `then` (6.8.3.4): its number, and its condition.
#[tactic(auto, unfolding(typing::specs::Statements::tested))]
pub(crate) fn if_head(typer: &mut Typer, place: Place, tested: &syntax::Expr) -> Typed<(u32, Expr)>
    ensures made { MakesIfHead (spec.tested place (expression tested.now) typer.old) result typer.new }
    ensures held { IfOk result (λ made. is_ordinal_expr made.1 ≡ true) }
{
    typer.pass(place);
    let number = typer.enter()?;
    let condition = condition(typer, tested)?;
    Ok((number, condition))
}

/// A condition, which is Boolean.
#[tactic(auto, unfolding(typing::specs::Statements::condition))]
pub(crate) fn condition(typer: &mut Typer, written: &syntax::Expr) -> Typed<Expr>
    ensures made { MakesCondition (spec.condition (expression written.now) typer.old) result typer.new }
    ensures held { IfOk result (λ made. is_ordinal_expr made ≡ true) }
{
    expression(typer, written, None)?.of(TypeTable::BOOLEAN, first_place(written))
}

/// A for as far as its `do` (6.8.3.9).
#[tactic(auto, unfolding(typing::specs::Statements::for_head))]
pub(crate) fn for_head(
    typer: &mut Typer,
    place: Place,
    variable: &syntax::Name,
    first: &syntax::Expr,
    direction: syntax::Direction,
    last: &syntax::Expr,
) -> Typed<ForHead>
    ensures made { MakesForHead (spec.for_head place variable.now (expression first.now) direction
        (expression last.now) typer.old) result typer.new }
    ensures first { IfOk result (λ head. is_ordinal_expr head.first.value ≡ true) }
    ensures last { IfOk result (λ head. is_ordinal_expr head.last.value ≡ true) }
{
    typer.pass(place);
    let denotation = typer.find(variable)?;
    let (control, type_id) = as_control(variable.place, denotation)?;
    if !typer.types().is_ordinal(type_id) {
        return Err(TypeFault::Mismatch(variable.place));
    }
    typer.may_change(variable.place, control)?;
    typer.may_control(variable.place, control)?;
    let (number, loop_number) = typer.enter_loop()?;
    let first = bound(typer, type_id, first)?;
    let last = made_beside!(bound(typer, type_id, last), first);
    Ok(ForHead {
        number,
        loop_number,
        place,
        control,
        first,
        direction: way(direction),
        last,
    })
}

// A bound of a for: the site of its test stands before those of its first token.
fn bound(typer: &mut Typer, type_id: TypeId, written: &syntax::Expr) -> Typed<Fitted>
    requires ordinal { tested_as (kind_of typer.old.types type_id) ≡ Ordinal }
    ensures made { (control : ℕ) → MakesBound control (spec.bound control type_id (expression written.now) typer.old)
        result typer.new }
    ensures held { IfOk result (λ made. is_ordinal_expr made.value ≡ true) }
    ensures kept { IfOk result (λ made. AreTestedAlike typer.old.types typer.new.types) }
{
    fitted(typer, type_id, first_place(written), written)
}

/// A case as far as its `of` (6.8.3.5), without constants, and the type of its index, which is ordinal: K1 at the first
/// token of that where it isn't.
#[tactic(auto, unfolding(typing::specs::Statements::case_head))]
pub(crate) fn case_head(
    typer: &mut Typer,
    place: Place,
    index: &syntax::Expr,
) -> Typed<(CaseHead, TypeId)>
    ensures made { MakesCaseHead (spec.case_head place (expression index.now) typer.old) result typer.new }
    ensures held { IfOk result (λ made. is_ordinal_expr (made.0).index ≡ true) }
{
    let site = typer.site(SiteKind::Case, place)?;
    let number = typer.enter()?;
    let place = first_place(index);
    let made = expression(typer, index, None)?;
    let type_id = made_beside!(ordinal_of(typer.types(), place, made.typed()), made);
    let head = CaseHead {
        number,
        site,
        index: made.into_scalar(),
        constants: Vec::new(typer.alloc),
    };
    Ok((head, type_id))
}
