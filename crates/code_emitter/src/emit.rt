ghost use Rattle.std.specs.Prelude.{◌≡◌, ◌≤◌, ◌+◌, map, max};
ghost use Rattle.code_scheme.specs.Code.{expr_code, for_begin, for_code, for_end, for_next, next_instr};
ghost use Rattle.code_scheme.specs.Code.{order_instr, repeat_code, statements_code, stmt_code};
ghost use Rattle.code_scheme.specs.Depth.{expr_depth, greatest, stmt_depth};
ghost use Rattle.code_scheme.specs.Sizes.{capped};
ghost use Rattle.code_emitter.specs.Emitted.{place_of, Gets};
ghost use Rattle.code_emitter.specs.Pieces.{for_order, for_tests, guarded_code};

use crate::assign::{emit_assign, emit_copy};
use crate::case::emit_case;
use crate::expression::emit_call;
use crate::read::emit_read;
use crate::with::emit_with;
use crate::write::emit_write;
use crate::{Emitter, check_of, emit_expr, load, store};
use code_scheme::Scope;
use pcode_assembler::Instr;
use typed_tree::{Direction, Expr, ForHead, LoopHead, Stmt};

/// The return of the program's frame, which never gets a value.
const UNDEFINED: u32 = 2;

/// The instructions of a statement.
#[cycle(emit_stmt)]
pub fn emit_stmt(code: &mut Emitter, scope: &Scope, stmt: &Stmt) -> u32
    ensures emits { Gets code.old code.new (stmt_code stmt.now scope.now (place_of code.old)) }
    ensures needs { result ≡ capped (stmt_depth stmt.now) }
{
    match stmt {
        Stmt::Empty { .. } => 0,
        Stmt::Assign(assignment) => emit_assign(code, scope, assignment),
        Stmt::Copy(copying) => emit_copy(code, scope, copying),
        Stmt::Write(writing) => emit_write(code, scope, writing),
        Stmt::Read(reading) => emit_read(code, scope, reading),
        Stmt::Call(calling) => emit_call(code, scope, calling.call, calling.actuals.as_slice()),
        Stmt::Compound { statements, .. } => emit_statements(code, scope, statements),
        Stmt::If {
            condition,
            consequence,
            alternative,
            ..
        } => match alternative {
            None => emit_guarded(code, scope, consequence, condition, 0),
            Some(alternative) => {
                let yes = emit_guarded(code, scope, consequence, condition, 1);
                let over = code.hole();
                let no = emit_stmt(code, scope, alternative);
                let target = code.place();
                code.set(over, Instr::Jump { target });
                yes.max(no)
            }
        },
        Stmt::While { head, body } => {
            let round = code.place();
            let depth = emit_guarded(code, scope, body, &head.condition, 1);
            code.put(Instr::Jump { target: round });
            depth
        }
        Stmt::Repeat { head, statements } => emit_repeat(code, scope, head, statements),
        Stmt::For { head, body } => emit_for(code, scope, head, body),
        Stmt::Case { head, arms } => emit_case(code, scope, head, arms),
        Stmt::With { head, body } => emit_with(code, scope, head, body),
    }
}

/// The instructions of some statements.
#[cycle(emit_stmt)]
fn emit_statements(code: &mut Emitter, scope: &Scope, statements: &Vec<Stmt>) -> u32
    ensures emits { Gets code.old code.new (statements_code scope.now statements.now.items (place_of code.old)) }
    ensures needs { result ≡ capped (greatest (map stmt_depth statements.now.items)) }
{
    let mut depth = 0;
    for statement in statements {
        depth = depth.max(emit_stmt(code, scope, statement));
    }
    depth
}

/// A condition, and the statement that is executed where it holds; where it doesn't, a jump behind that and so many
/// instructions more.
#[cycle(emit_stmt)]
fn emit_guarded(
    code: &mut Emitter,
    scope: &Scope,
    inside: &Stmt,
    condition: &Expr,
    past: u32,
) -> u32
    requires { past ≤ 1 }
    ensures emits { Gets code.old code.new
        (guarded_code past (expr_code scope.now condition.now) (stmt_code inside.now) scope.now (place_of code.old)) }
    ensures needs { result ≡ capped (max (expr_depth condition.now) (stmt_depth inside.now)) }
{
    let test = emit_expr(code, scope, condition);
    let jump = code.hole();
    let depth = emit_stmt(code, scope, inside);
    let target = code.place() + past;
    code.set(jump, Instr::JumpIfFalse { target });
    test.max(depth)
}

/// A repeat statement.
#[cycle(emit_stmt)]
fn emit_repeat(code: &mut Emitter, scope: &Scope, head: &LoopHead, statements: &Vec<Stmt>) -> u32
    ensures emits { Gets code.old code.new (repeat_code (statements_code scope.now statements.now.items)
        (expr_code scope.now head.now.condition) (place_of code.old)) }
    ensures needs { result ≡ capped
        (max (greatest (map stmt_depth statements.now.items)) (expr_depth head.now.condition)) }
{
    let round = code.place();
    let inside = emit_statements(code, scope, statements);
    let test = emit_expr(code, scope, &head.condition);
    code.put(Instr::JumpIfFalse { target: round });
    inside.max(test)
}

/// A for statement.
#[cycle(emit_stmt)]
fn emit_for(code: &mut Emitter, scope: &Scope, head: &ForHead, body: &Stmt) -> u32
    ensures emits { Gets code.old code.new
        (for_code head.now (stmt_code body.now) scope.now (place_of code.old)) }
    ensures needs { result ≡ capped (max (max (expr_depth head.now.first.value) (expr_depth head.now.last.value + 1))
        (max 4 (stmt_depth body.now + 2))) }
{
    let first = emit_expr(code, scope, &head.first.value);
    let last = emit_expr(code, scope, &head.last.value);
    emit_order(code, scope, head.direction);
    let jump = code.hole();
    emit_tests(code, scope, head);
    let round = code.place();
    emit_begin(code, scope, head.control);
    let inside = emit_stmt(code, &scope.holding(2), body);
    let target = code.place() + 9;
    emit_next(code, scope, head.direction, round, target);
    code.set(jump, Instr::JumpIfFalse { target });
    emit_end(code, scope, head.control);
    first
        .max(last.saturating_add(1))
        .max(inside.saturating_add(2).max(4))
}

/// Behind both bounds of a for statement: whether they leave a value.
fn emit_order(code: &mut Emitter, scope: &Scope, direction: Direction)
    ensures { Gets code.old code.new (for_order scope.now direction) }
{
    let value = scope.held_offset(0);
    let last = scope.held_offset(1);
    code.put_all(&[load(value), load(last), order_of(direction)]);
}

/// Where they do, their tests.
fn emit_tests(code: &mut Emitter, scope: &Scope, head: &ForHead)
    ensures { Gets code.old code.new (for_tests scope.now head.now) }
{
    let value = scope.held_offset(0);
    let first = check_of(head.first.fits);
    let last = check_of(head.last.fits);
    code.put_all(&[load(value), first, store(value), last]);
}

/// The control variable gets the value that is held.
fn emit_begin(code: &mut Emitter, scope: &Scope, control: u32)
    ensures { Gets code.old code.new (for_begin scope.now control) }
{
    let value = scope.held_offset(0);
    let variable = scope.home(control).start;
    code.put_all(&[load(value), store(variable)]);
}

/// Behind the body: out of the loop with the last value, else to the next round with the next one.
fn emit_next(code: &mut Emitter, scope: &Scope, direction: Direction, round: u32, out: u32)
    ensures { Gets code.old code.new (for_next scope.now direction round out) }
{
    let value = scope.held_offset(0);
    let last = scope.held_offset(1);
    code.put_all(&[
        load(value),
        load(last),
        Instr::NotEqual,
        Instr::JumpIfFalse { target: out },
        load(value),
        Instr::LoadConstant { value: 1 },
        step_of(direction),
        store(value),
        Instr::Jump { target: round },
    ]);
}

/// Behind the loop nothing more is held, and the control variable is undefined.
fn emit_end(code: &mut Emitter, scope: &Scope, control: u32)
    ensures { Gets code.old code.new (for_end scope.now control) }
{
    let cell = scope.home(control).start;
    let (level, offset) = (scope.links_to(0), UNDEFINED);
    let nothing = Instr::Load { level, offset };
    code.put_all(&[store(cell), store(cell), nothing, store(cell)]);
}

/// What compares the bounds of a for statement.
fn order_of(direction: Direction) -> Instr
    ensures { result ≡ order_instr direction }
{
    match direction {
        Direction::To => Instr::LessOrEqual,
        Direction::DownTo => Instr::GreaterOrEqual,
    }
}

/// What makes the next value of a control variable, with 1 on top.
fn step_of(direction: Direction) -> Instr
    ensures { result ≡ next_instr direction }
{
    match direction {
        Direction::To => Instr::Add,
        Direction::DownTo => Instr::Subtract,
    }
}
