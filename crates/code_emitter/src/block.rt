ghost use Rattle.std.specs.Prelude.{◌≡◌, ℕ};
ghost use Rattle.code_scheme.specs.Code.{block_code, end_code};
ghost use Rattle.code_scheme.specs.Depth.{result_depth};
ghost use Rattle.code_scheme.specs.Frames.{frame_of};
ghost use Rattle.code_scheme.specs.Large.{passes_too_much as has_too_much};
ghost use Rattle.code_emitter.specs.Emitted.{place_of, Gets, Grows};
ghost use Rattle.typed_tree.specs.declared.tree.Tree.{Tree};

use crate::{Emitter, Loss, emit_stmt, load};
use code_scheme::{Frame, MOST_CELLS, Scope};
use pcode_assembler::Instr;
use typed_tree::{Block, FunctionResult};

/// The most cells of parameters that a call may pass.
const MOST_PASSED: u32 = 65536;

/// The instructions of the block with this number, which has this frame, where its statements run in this scope: its
/// variables, its statement and its end. One with too many cells of parameters loses the code.
pub fn emit_block(code: &mut Emitter, scope: &Scope, frame: Frame, number: usize, block: &Block)
    ensures { (tree : Tree) → frame ≡ frame_of tree.types tree.variables.items number
        → Grows (has_too_much tree number) code.old code.new
        (block_code tree number block.now scope.now (place_of code.old)) }
{
    let enter = code.hole();
    let body = emit_stmt(code, scope, &block.body);
    let depth = body.max(needed_by_result(block.heading.result));
    emit_end(code, scope, number, block.heading.result);
    let variables = frame.others.min(MOST_CELLS);
    let evaluation = depth.min(MOST_CELLS);
    let frame_begins = Instr::Enter {
        variables,
        evaluation,
    };
    code.set(enter, frame_begins);
    if passes_too_much(frame) {
        code.lose(Loss::TooLarge);
    }
}

/// The end of a block: that of the program's ends the run; a routine returns, a function with its result.
fn emit_end(code: &mut Emitter, scope: &Scope, number: usize, value: Option<FunctionResult>)
    ensures { Gets code.old code.new (end_code scope.now number value) }
{
    if number == 0 {
        code.put(Instr::Stop);
        return;
    }
    match value {
        None => code.put(Instr::Return { results: 0 }),
        Some(function) => {
            let offset = scope.home(function.root).start;
            let site = function.defined;
            let check = Instr::CheckDefined { site, length: 1 };
            code.put_all(&[load(offset), check, Instr::Return { results: 1 }]);
        }
    }
}

/// How many cells the end of a routine needs: the result of a function is pushed.
fn needed_by_result(value: Option<FunctionResult>) -> u32
    ensures { result ≡ result_depth value }
{
    u32::from(value.is_some())
}

/// Whether a block with this frame has more cells of parameters than a call may pass.
fn passes_too_much(frame: Frame) -> bool
    ensures { (tree : Tree) (number : ℕ) → frame ≡ frame_of tree.types tree.variables.items number
        → result ≡ has_too_much tree number }
{
    frame.parameters > MOST_PASSED
}
