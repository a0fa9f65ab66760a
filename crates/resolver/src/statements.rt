ghost use Rattle.std.specs.Prelude.{◌≡◌, [], true, IfOk, map, option_map};
ghost use Rattle.syntax_tree.specs.Places.{arms_of};
ghost use Rattle.typed_tree.specs.Kinds.{is_held_stmt, is_ordinal_expr};
ghost use Rattle.typed_tree.specs.Tests.{all_hold};
ghost use Rattle.typing.specs.Expressions.{expression};
ghost use Rattle.typing.specs.Passing.{behind_marks, each};
ghost use Rattle.typing.specs.Statements as spec;
ghost use Rattle.resolver.specs.Made.{MakesStmt, MakesStmts, MakesBoxed, MakesAlternative, MakesArms};
ghost use Rattle.resolver.specs.Forms.{is_conditional, is_repetitive};
ghost use Rattle.resolver.specs.Made.{for_head_look, is_held_else};

use crate::assignments::assignment;
use crate::calls::procedure_call;
use crate::cases::constant_row;
use crate::heads::{case_head, condition, empty, for_head, if_head};
use crate::owned::{in_box, made_beside};
use crate::records::{close_records, opened_records};
use declarations::Typed;
use indexmap::IndexSet;
use place::Place;
use syntax_tree as syntax;
use typed_tree::{CaseHead, ForHead, LoopHead, Stmt, WithHead};
use types::TypeId;
use typing::Typer;

/// A statement.
#[cycle(statements)]
#[tactic(auto, using(typing::proofs::Written::written_statements))]
pub(crate) fn statement(typer: &mut Typer, written: &syntax::Stmt) -> Typed<Stmt>
    ensures made { MakesStmt (spec.statement written.now typer.old) result typer.new }
    ensures held { IfOk result (λ made. is_held_stmt made ≡ true) }
{
    match written {
        syntax::Stmt::Empty => empty(typer),
        syntax::Stmt::Assign {
            name,
            selectors,
            indexes,
            becomes,
            value,
        } => assignment(typer, name, selectors, indexes, *becomes, value),
        syntax::Stmt::Call { name, actuals } => procedure_call(typer, name, actuals),
        syntax::Stmt::Compound { statements } => compound(typer, statements),
        syntax::Stmt::If { .. } | syntax::Stmt::Case { .. } => conditional(typer, written),
        syntax::Stmt::While { .. } | syntax::Stmt::Repeat { .. } | syntax::Stmt::For { .. } => {
            repetitive(typer, written)
        }
        syntax::Stmt::With {
            place,
            records,
            body,
        } => with(typer, *place, records, body),
    }
}

// A conditional statement (6.8.3.3).
#[cycle(statements)]
#[tactic(auto, using(crate::proofs::Branches::conditional_forms), unfolding(typing::specs::Statements::choice))]
fn conditional(typer: &mut Typer, written: &syntax::Stmt) -> Typed<Stmt>
    requires { is_conditional written.now ≡ true }
    ensures made { MakesStmt (spec.statement written.now typer.old) result typer.new }
    ensures held { IfOk result (λ made. is_held_stmt made ≡ true) }
{
    match written {
        syntax::Stmt::If {
            place,
            condition,
            consequence,
            alternative,
        } => {
            let (number, condition) = if_head(typer, *place, condition)?;
            let consequence = made_beside!(boxed(typer, consequence), condition);
            let alternative = made_beside!(other(typer, alternative), condition, consequence);
            Ok(Stmt::If {
                number,
                condition,
                consequence,
                alternative,
            })
        }
        syntax::Stmt::Case {
            place,
            index,
            constants,
            arms,
            ..
        } => case_statement(typer, arms, *place, index, constants),
        _ => unreachable!(),
    }
}

// A repetitive statement (6.8.3.6).
#[cycle(statements)]
#[tactic(auto, using(typing::proofs::Written::written_statements))]
fn repetitive(typer: &mut Typer, written: &syntax::Stmt) -> Typed<Stmt>
    requires { is_repetitive written.now ≡ true }
    ensures made { MakesStmt (spec.statement written.now typer.old) result typer.new }
    ensures held { IfOk result (λ made. is_held_stmt made ≡ true) }
{
    match written {
        syntax::Stmt::While {
            place,
            condition,
            body,
        } => while_loop(typer, body, *place, condition),
        syntax::Stmt::Repeat {
            place,
            statements,
            condition,
        } => repeat_loop(typer, *place, statements, condition),
        syntax::Stmt::For {
            place,
            variable,
            first,
            direction,
            last,
            body,
        } => {
            let head = for_head(typer, *place, variable, first, *direction, last)?;
            for_loop(typer, head, body)
        }
        _ => unreachable!(),
    }
}

/// Statements between `begin` and `end`.
#[cycle(statements)]
#[tactic(auto, using(crate::proofs::Branches::made_compound), unfolding(typing::specs::Statements::compound))]
pub(crate) fn compound(typer: &mut Typer, written: &[syntax::Stmt]) -> Typed<Stmt>
    ensures made { MakesStmt (spec.compound (map spec.statement written.now) typer.old) result typer.new }
    ensures held { IfOk result (λ made. is_held_stmt made ≡ true) }
{
    let number = typer.enter()?;
    let statements = statements(typer, written)?;
    Ok(Stmt::Compound { number, statements })
}

// Statements, one after another.
#[cycle(statements)]
fn statements(typer: &mut Typer, written: &[syntax::Stmt]) -> Typed<Vec<Stmt>>
    ensures made { MakesStmts (each (λ s. s) (map spec.statement written.now) typer.old) result typer.new }
    ensures held { IfOk result (λ made. all_hold (map is_held_stmt made.items) ≡ true) }
{
    let mut made = Vec::with_capacity(typer.alloc, written.len())?;
    for next in written {
        made.push_reserved(statement(typer, next)?);
    }
    Ok(made)
}

// A statement inside another.
#[cycle(statements)]
fn boxed(typer: &mut Typer, written: &syntax::Stmt) -> Typed<Box<Stmt>>
    ensures made { MakesBoxed (spec.statement written.now typer.old) result typer.new }
    ensures held { IfOk result (λ made. is_held_stmt made.value ≡ true) }
{
    let made = statement(typer, written);
    in_box(typer.alloc, made)
}

// The statement behind `else`, if there is one.
#[cycle(statements)]
#[tactic(auto, unfolding(typing::specs::Statements::alternative))]
fn other(typer: &mut Typer, written: &Option<Box<syntax::Stmt>>) -> Typed<Option<Box<Stmt>>>
    ensures made { MakesAlternative (spec.alternative (option_map (λ s. spec.statement s.value) written.now) typer.old)
        result typer.new }
    ensures held { IfOk result (λ made. is_held_else made ≡ true) }
{
    match written {
        None => Ok(None),
        Some(written) => Ok(Some(boxed(typer, written)?)),
    }
}

// A while (6.8.3.8).
#[cycle(statements)]
#[tactic(auto, using(crate::proofs::Branches::made_while), unfolding(typing::specs::Statements::while_loop))]
fn while_loop(
    typer: &mut Typer,
    body: &syntax::Stmt,
    place: Place,
    tested: &syntax::Expr,
) -> Typed<Stmt>
    ensures made { MakesStmt (spec.while_loop place (expression tested.now) (spec.statement body.now) typer.old)
        result typer.new }
    ensures held { IfOk result (λ made. is_held_stmt made ≡ true) }
{
    typer.pass(place);
    let (number, loop_number) = typer.enter_loop()?;
    let head = LoopHead {
        number,
        loop_number,
        place,
        condition: condition(typer, tested)?,
    };
    let body = made_beside!(boxed(typer, body), head);
    Ok(Stmt::While { head, body })
}

// A repeat (6.8.3.7).
#[cycle(statements)]
#[tactic(auto, using(crate::proofs::Branches::made_repeat), unfolding(typing::specs::Statements::repeat_loop))]
fn repeat_loop(
    typer: &mut Typer,
    place: Place,
    written: &[syntax::Stmt],
    tested: &syntax::Expr,
) -> Typed<Stmt>
    ensures made { MakesStmt (spec.repeat_loop place (map spec.statement written.now) (expression tested.now) typer.old)
        result typer.new }
    ensures held { IfOk result (λ made. is_held_stmt made ≡ true) }
{
    typer.pass(place);
    let (number, loop_number) = typer.enter_loop()?;
    let statements = statements(typer, written)?;
    let condition = made_beside!(condition(typer, tested), statements);
    let head = LoopHead {
        number,
        loop_number,
        place,
        condition,
    };
    Ok(Stmt::Repeat { head, statements })
}

// A for (6.8.3.9), behind its `do`.
#[cycle(statements)]
#[tactic(auto, using(crate::proofs::Branches::made_for), unfolding(typing::specs::Statements::for_body))]
fn for_loop(typer: &mut Typer, head: ForHead, body: &syntax::Stmt) -> Typed<Stmt>
    requires first { is_ordinal_expr head.first.value ≡ true }
    requires last { is_ordinal_expr head.last.value ≡ true }
    ensures made { MakesStmt (behind_marks (for_head_look head) (spec.for_body head.control (spec.statement body.now)
        typer.old)) result typer.new }
    ensures held { IfOk result (λ made. is_held_stmt made ≡ true) }
{
    made_beside!(typer.begin_control(head.control), head);
    let body = made_beside!(boxed(typer, body), head);
    typer.end_control();
    Ok(Stmt::For { head, body })
}

// A case (6.8.3.5).
#[cycle(statements)]
#[tactic(auto, using(crate::proofs::Branches::made_case), unfolding(typing::specs::Statements::case_body))]
fn case_statement(
    typer: &mut Typer,
    arms: &[syntax::Stmt],
    place: Place,
    index: &syntax::Expr,
    constants: &[Vec<syntax::Constant>],
) -> Typed<Stmt>
    ensures made { MakesStmt (spec.case_statement place (expression index.now)
        (arms_of constants.now (map spec.statement arms.now)) typer.old) result typer.new }
    ensures held { IfOk result (λ made. is_held_stmt made ≡ true) }
{
    let (head, type_id) = case_head(typer, place, index)?;
    let (constants, arms) = made_beside!(case_arms(typer, type_id, constants, arms), head);
    let head = CaseHead { constants, ..head };
    Ok(Stmt::Case { head, arms })
}

// A with (6.8.3.10).
#[cycle(statements)]
#[tactic(auto, using(crate::proofs::Branches::made_with))]
fn with(
    typer: &mut Typer,
    place: Place,
    records: &[syntax::RecordVariable],
    body: &syntax::Stmt,
) -> Typed<Stmt>
    ensures made { MakesStmt (spec.with_statement place (map spec.written_record records.now) (spec.statement body.now)
        typer.old) result typer.new }
    ensures held { IfOk result (λ made. is_held_stmt made ≡ true) }
{
    typer.pass(place);
    let first_slot = typer.next_slot();
    let number = typer.enter()?;
    let opened = opened_records(typer, records)?;
    let body = boxed(typer, body)?;
    close_records(typer, records);
    let head = WithHead {
        number,
        first_slot,
        records: opened,
    };
    Ok(Stmt::With { head, body })
}

// The arms of a case, by the type of its index, with the rows of constants before them.
#[cycle(statements)]
fn case_arms(
    typer: &mut Typer,
    type_id: TypeId,
    constants: &[Vec<syntax::Constant>],
    written: &[syntax::Stmt],
) -> Typed<(Vec<Vec<i32>>, Vec<Stmt>)>
    ensures made { MakesArms (spec.case_arms type_id [] (arms_of constants.now (map spec.statement written.now))
        typer.old) result typer.new }
    ensures held { IfOk result (λ made. all_hold (map is_held_stmt (made.1).items) ≡ true) }
{
    let mut seen = IndexSet::new(typer.alloc);
    let mut rows = Vec::with_capacity(typer.alloc, written.len())?;
    let mut arms = Vec::with_capacity(typer.alloc, written.len())?;
    for (index, arm) in written.iter().enumerate() {
        if let Some(row) = constants.get(index) {
            rows.push_reserved(constant_row(typer, type_id, row, &mut seen)?);
            arms.push_reserved(statement(typer, arm)?);
        }
    }
    Ok((rows, arms))
}
