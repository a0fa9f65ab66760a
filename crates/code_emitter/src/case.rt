ghost use Rattle.std.specs.Prelude.{◌≡◌, ◌+◌, ◌*◌, [], ◌∷◌, ◌++◌, length, map, max};
ghost use Rattle.pcode_assembler.specs.declared.instr.Instr.TheVariants.{Fail, JumpIfFalse};
ghost use Rattle.code_scheme.specs.Code.{arms_code, case_code, row_code, stmt_code};
ghost use Rattle.code_scheme.specs.Depth.{arms_depth, expr_depth, stmt_depth};
ghost use Rattle.code_scheme.specs.Sizes.{capped};
ghost use Rattle.code_emitter.specs.Emitted.{place_of, Gets, IsKept};
ghost use Rattle.code_emitter.specs.Pieces.{arm_code, arm_end, jumps_out};

use crate::{Emitter, emit_expr, emit_stmt, load};
use code_scheme::Scope;
use pcode_assembler::Instr;
use typed_tree::{CaseHead, Stmt};

/// A case statement: the index, which is held; the arms; an error where it equals no constant; and what takes the index
/// away.
#[cycle(emit_stmt)]
pub fn emit_case(code: &mut Emitter, scope: &Scope, head: &CaseHead, arms: &Vec<Stmt>) -> u32
    ensures emits { Gets code.old code.new
        (case_code head.now (map stmt_code arms.now.items) scope.now (place_of code.old)) }
    ensures needs { result ≡ capped (max (expr_depth head.now.index)
        (max 3 (arms_depth head.now.constants.items (map stmt_depth arms.now.items) + 1))) }
{
    let mut outs = Vec::new(code.alloc());
    let index = emit_expr(code, scope, &head.index);
    let inside = emit_arms(code, scope, &mut outs, &head.constants, arms);
    code.put(Instr::Fail { site: head.site });
    let target = code.place();
    code.put(Instr::JumpIfFalse { target: target + 1 });
    code.set_jumps(outs.as_slice(), target);
    index.max(inside.saturating_add(1).max(3))
}

/// The arms of a case statement, each behind its row of constants; and where the jumps out of the statement stand,
/// which are set later.
#[cycle(emit_stmt)]
fn emit_arms(
    code: &mut Emitter,
    scope: &Scope,
    outs: &mut Vec<u32>,
    constants: &Vec<Vec<i32>>,
    arms: &Vec<Stmt>,
) -> u32
    ensures emits { Gets code.old code.new
        (arms_code scope.now 0 constants.now.items (map stmt_code arms.now.items) (place_of code.old)) }
    ensures outs { IsKept code.new → outs.new.items ≡ outs.old.items
        ++ jumps_out scope.now constants.now.items (map stmt_code arms.now.items) (place_of code.old) }
    ensures needs { result ≡ capped (arms_depth constants.now.items (map stmt_depth arms.now.items)) }
{
    let mut rows = constants.as_slice();
    let mut depth = 0;
    for arm in arms {
        let Some((row, others)) = rows.split_first() else {
            return depth;
        };
        depth = depth.max(emit_arm(code, scope, outs, row.as_slice(), arm));
        rows = others;
    }
    depth
}

/// An arm: its constants, a jump over it, the arm, and a jump out of the statement.
#[cycle(emit_stmt)]
fn emit_arm(code: &mut Emitter, scope: &Scope, outs: &mut Vec<u32>, row: &[i32], arm: &Stmt) -> u32
    ensures emits { Gets code.old code.new (arm_code scope.now row.now (stmt_code arm.now) (place_of code.old)) }
    ensures outs { IsKept code.new → outs.new.items ≡ outs.old.items
        ++ arm_end scope.now row.now (stmt_code arm.now) (place_of code.old) ∷ [] }
    ensures needs { result ≡ capped (stmt_depth arm.now) }
{
    emit_row(code, scope, row);
    let over = code.hole();
    let depth = emit_stmt(code, &scope.holding(1), arm);
    let out = code.hole();
    keep_out(code, outs, out);
    let target = code.place();
    code.set(over, Instr::Jump { target });
    depth
}

/// Keeps the place of a jump out of a case statement.
fn keep_out(code: &mut Emitter, outs: &mut Vec<u32>, out: u32)
    ensures emits { Gets code.old code.new [] }
    ensures outs { IsKept code.new → outs.new.items ≡ outs.old.items ++ out ∷ [] }
{
    if let Err(error) = outs.push(out) {
        code.lose(error.into());
    }
}

/// The value that is held is compared with each constant of a row; a jump behind the row and one instruction more is
/// taken where it is the same.
fn emit_row(code: &mut Emitter, scope: &Scope, row: &[i32])
    ensures { Gets code.old code.new
        (row_code scope.now (capped (place_of code.old + 4 * length row.now + 1)) row.now) }
{
    let constants = u32::try_from(row.len()).unwrap_or(u32::MAX);
    let inside = code.place().saturating_add(constants.saturating_mul(4));
    let target = inside.saturating_add(1);
    let value = scope.held_offset(0);
    for constant in row {
        let constant = Instr::LoadConstant { value: *constant };
        let choice = Instr::JumpIfFalse { target };
        code.put_all(&[constant, load(value), Instr::NotEqual, choice]);
    }
}
