ghost use Rattle.std.specs.Prelude.{◌≡◌, [], ◌∷◌, ◌++◌, ◌+◌, max};
ghost use Rattle.code_scheme.specs.Code.{assign_code, copy_code, expr_code, value_check};
ghost use Rattle.code_scheme.specs.Depth.{access_depth, expr_depth, index_depths, store_depth, whole_depth};
ghost use Rattle.code_scheme.specs.Sizes.{capped};
ghost use Rattle.code_emitter.specs.Emitted.{Gets};

use crate::instrs::value_check_of;
use crate::{Cell, Emitter, cell_in_frame, emit_address, emit_expr, emit_whole, row_length};
use code_scheme::Scope;
use pcode_assembler::Instr;
use typed_tree::{Assignment, Copying};

/// An assignment to an ordinal: its address comes first, if it is no cell of a frame; the value, its check, its store.
/// Answers how many cells that needs at once, or the greatest number of 32 bits, as all that emits code does.
pub fn emit_assign(code: &mut Emitter, scope: &Scope, assignment: &Assignment) -> u32
    ensures emits { Gets code.old code.new (assign_code scope.now assignment.now) }
    ensures needs { result ≡ capped (store_depth assignment.now.target.selectors.items
        (index_depths assignment.now.indexes.items) (expr_depth assignment.now.value)) }
{
    let target = &assignment.target;
    match cell_in_frame(scope, target) {
        Some(Cell { level, offset }) => {
            let value = emit_checked(code, scope, assignment);
            code.put(Instr::Store { level, offset });
            value.saturating_add(1)
        }
        None => {
            let address = emit_address(code, scope, target, assignment.indexes.as_slice());
            let value = emit_checked(code, scope, assignment);
            code.put(Instr::StoreIndirect);
            address.max(value.saturating_add(1))
        }
    }
}

/// An assignment of a whole value: the target's address, the value, and the store of its components.
pub fn emit_copy(code: &mut Emitter, scope: &Scope, copying: &Copying) -> u32
    ensures emits { Gets code.old code.new (copy_code scope.now copying.now) }
    ensures needs { result ≡ capped
        (max (access_depth copying.now.target.selectors.items (index_depths copying.now.indexes.items))
        (whole_depth copying.now.value (index_depths copying.now.value_indexes.items) + 1)) }
{
    let length = row_length(&copying.value);
    let address = emit_address(code, scope, &copying.target, copying.indexes.as_slice());
    let indexes = copying.value_indexes.as_slice();
    let value = emit_whole(code, scope, &copying.value, indexes);
    code.put(Instr::StoreMany { length });
    address.max(value.saturating_add(1))
}

/// A value that is assigned, and its check.
fn emit_checked(code: &mut Emitter, scope: &Scope, assignment: &Assignment) -> u32
    ensures emits { Gets code.old code.new
        (expr_code scope.now assignment.now.value ++ value_check assignment.now.fits ∷ []) }
    ensures needs { result ≡ capped (expr_depth assignment.now.value) }
{
    let depth = emit_expr(code, scope, &assignment.value);
    code.put(value_check_of(assignment.fits));
    depth
}
