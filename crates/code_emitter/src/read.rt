ghost use Rattle.std.specs.Prelude.{◌≡◌, map};
ghost use Rattle.code_scheme.specs.Code.{input_code, line_passed_code, read_code, read_instr, variable_read_code};
ghost use Rattle.code_scheme.specs.Depth.{greatest, read_depth};
ghost use Rattle.code_scheme.specs.Sizes.{capped};
ghost use Rattle.code_emitter.specs.Emitted.{Gets};

use crate::{Cell, Emitter, cell_in_frame, emit_address};
use code_scheme::Scope;
use pcode_assembler::Instr;
use typed_tree::{ReadVariable, Readable, Reading};

/// Each variable that is read, and behind a readln the next line end.
pub fn emit_read(code: &mut Emitter, scope: &Scope, reading: &Reading) -> u32
    ensures emits { Gets code.old code.new (read_code scope.now reading.now) }
    ensures needs { result ≡ capped (greatest (map read_depth reading.now.variables.items)) }
{
    let mut depth = 0;
    for one in &reading.variables {
        depth = depth.max(emit_variable(code, scope, one));
    }
    emit_line_passed(code, reading.line);
    depth
}

/// A variable that is read: its address comes first, if it is no cell of a frame; what is read, its check, its store.
fn emit_variable(code: &mut Emitter, scope: &Scope, one: &ReadVariable) -> u32
    ensures emits { Gets code.old code.new (variable_read_code scope.now one.now) }
    ensures needs { result ≡ capped (read_depth one.now) }
{
    match cell_in_frame(scope, &one.access) {
        Some(Cell { level, offset }) => {
            emit_input(code, one);
            code.put(Instr::Store { level, offset });
            2
        }
        None => {
            let address = emit_address(code, scope, &one.access, one.indexes.as_slice());
            emit_input(code, one);
            code.put(Instr::StoreIndirect);
            address.max(2)
        }
    }
}

/// What is read, and its check.
fn emit_input(code: &mut Emitter, one: &ReadVariable)
    ensures { Gets code.old code.new (input_code one.now) }
{
    let point = one.point;
    let low = one.range.first;
    let high = one.range.last;
    let check = Instr::CheckInput { point, low, high };
    code.put_all(&[input_of(one.reads, point), check]);
}

/// The next line end is passed behind a readln.
fn emit_line_passed(code: &mut Emitter, line: Option<u32>)
    ensures { Gets code.old code.new (line_passed_code line) }
{
    if let Some(point) = line {
        code.put(Instr::ReadLine { point });
    }
}

/// What reads an integer or a character at a point.
fn input_of(reads: Readable, point: u32) -> Instr
    ensures { result ≡ read_instr reads point }
{
    match reads {
        Readable::Integer => Instr::ReadInteger { point },
        Readable::Char => Instr::ReadChar { point },
    }
}
