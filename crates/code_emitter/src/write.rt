ghost use Rattle.std.specs.Prelude.{◌≡◌, map};
ghost use Rattle.code_scheme.specs.Code.{default_width, line_end_code, ordinal_width, parameter_code, width_code};
ghost use Rattle.code_scheme.specs.Code.{write_code, write_instr, written_code};
ghost use Rattle.code_scheme.specs.Depth.{greatest, parameter_depth, width_depth, written_cells as cells_written};
ghost use Rattle.code_scheme.specs.Depth.{written_depth};
ghost use Rattle.code_scheme.specs.Sizes.{capped};
ghost use Rattle.code_emitter.specs.Emitted.{Gets};

use crate::{Emitter, cells_of_whole, emit_expr, emit_whole, positive_at, row_length};
use code_scheme::Scope;
use pcode_assembler::Instr;
use typed_tree::{Representation, WriteParameter, Writing, Written};

/// The total width of a char that is written without one.
const CHAR_WIDTH: i32 = 1;

/// The total width of an integer that is written without one.
const INTEGER_WIDTH: i32 = 10;

/// The total width of a Boolean that is written without one.
const BOOLEAN_WIDTH: i32 = 5;

/// Each value that is written, and a line end behind a writeln.
pub fn emit_write(code: &mut Emitter, scope: &Scope, writing: &Writing) -> u32
    ensures emits { Gets code.old code.new (write_code scope.now writing.now) }
    ensures needs { result ≡ capped (greatest (map parameter_depth writing.now.parameters.items)) }
{
    let mut depth = 0;
    for parameter in &writing.parameters {
        depth = depth.max(emit_parameter(code, scope, parameter));
    }
    emit_line_end(code, writing.ends_line);
    depth
}

/// A value that is written: it, its width, and the output of both.
fn emit_parameter(code: &mut Emitter, scope: &Scope, parameter: &WriteParameter) -> u32
    ensures emits { Gets code.old code.new (parameter_code scope.now parameter.now) }
    ensures needs { result ≡ capped (parameter_depth parameter.now) }
{
    let value = emit_written(code, scope, &parameter.value);
    let width = emit_width(code, scope, parameter);
    code.put(output_of(&parameter.value));
    value.max(width.saturating_add(written_cells(&parameter.value)))
}

/// The value that is written.
fn emit_written(code: &mut Emitter, scope: &Scope, value: &Written) -> u32
    ensures emits { Gets code.old code.new (written_code scope.now value.now) }
    ensures needs { result ≡ capped (written_depth value.now) }
{
    match value {
        Written::Ordinal { value, .. } => emit_expr(code, scope, value),
        Written::String { value, indexes } => emit_whole(code, scope, value, indexes.as_slice()),
    }
}

/// How many cells it has.
fn written_cells(value: &Written) -> u32
    ensures { result ≡ capped (cells_written value.now) }
{
    match value {
        Written::Ordinal { .. } => 1,
        Written::String { value, .. } => cells_of_whole(value),
    }
}

/// The width of a value that is written, checked, or the default one.
fn emit_width(code: &mut Emitter, scope: &Scope, parameter: &WriteParameter) -> u32
    ensures emits { Gets code.old code.new (width_code scope.now parameter.now.width parameter.now.value) }
    ensures needs { result ≡ capped (width_depth parameter.now.width) }
{
    match &parameter.width {
        None => {
            code.put(width_without(&parameter.value));
            1
        }
        Some(width) => {
            let depth = emit_expr(code, scope, &width.value);
            code.put(positive_at(width.site));
            depth
        }
    }
}

/// A line end behind a writeln.
fn emit_line_end(code: &mut Emitter, ends_line: bool)
    ensures { Gets code.old code.new (line_end_code ends_line) }
{
    if ends_line {
        code.put(Instr::WriteLine);
    }
}

/// The width of a value that is written without one.
fn width_without(value: &Written) -> Instr
    ensures { result ≡ default_width value.now }
{
    let value = match value {
        Written::Ordinal { representation, .. } => width_of_ordinal(*representation),
        Written::String { value, .. } => row_length(value) as i32,
    };
    Instr::LoadConstant { value }
}

/// The same of an ordinal.
fn width_of_ordinal(representation: Representation) -> i32
    ensures { result ≡ ordinal_width representation }
{
    match representation {
        Representation::Char => CHAR_WIDTH,
        Representation::Integer => INTEGER_WIDTH,
        Representation::Boolean => BOOLEAN_WIDTH,
    }
}

/// What writes a value, its width on top.
fn output_of(value: &Written) -> Instr
    ensures { result ≡ write_instr value.now }
{
    match value {
        Written::Ordinal { representation, .. } => match representation {
            Representation::Char => Instr::WriteChar,
            Representation::Integer => Instr::WriteInteger,
            Representation::Boolean => Instr::WriteBoolean,
        },
        Written::String { value, .. } => Instr::WriteString {
            length: row_length(value),
        },
    }
}
