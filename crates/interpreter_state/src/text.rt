ghost use Rattle.std.specs.Prelude.{◌≡◌, ◌++◌, OnOk, map, pos, replicate};
ghost use Rattle.meaning.specs.Effect.{boolean_text, char_text, integer_text, number_of, places, row_text};
ghost use Rattle.meaning.specs.Effect.{text_of};
ghost use Rattle.meaning.specs.Integers.{byte_of};

use crate::ordinals::number_of;
use crate::rows::row_of;
use meaning::{Ordinal, Value};
use std::alloc::{AllocError, Global};
use typed_tree::Representation;

/// Writes an ordinal in a width (ISO 7185:1990, 6.9.3).
pub fn write_ordinal(
    alloc: Global,
    output: &mut Vec<u8>,
    representation: Representation,
    number: Ordinal,
    width: Ordinal,
) -> Result<(), AllocError>
    ensures { OnOk result (output.new.items ≡ output.old.items ++ text_of representation number width) }
{
    match representation {
        Representation::Char => write_char(output, number, width),
        Representation::Integer => write_integer(alloc, output, number, width),
        Representation::Boolean => write_boolean(alloc, output, number, width),
    }
}

/// Writes a string, by its components, in a width (ISO 7185:1990, 6.9.3.6).
pub fn write_row(output: &mut Vec<u8>, row: &[Value], width: Ordinal) -> Result<(), AllocError>
    ensures { OnOk result (output.new.items ≡ output.old.items ++ row_text row.now width) }
{
    write_row_in(output, row, places_in(width))
}

/// Writes a string, by its components, in so many places: it is set right in them, or cut to its first characters.
pub fn write_row_in(output: &mut Vec<u8>, row: &[Value], places: usize) -> Result<(), AllocError>
    ensures { OnOk result (output.new.items ≡ output.old.items ++ row_text row.now (pos places)) }
{
    if places < row.len() {
        write_bytes(output, &row[..places])
    } else {
        indent(output, places - row.len())?;
        write_bytes(output, row)
    }
}

// Writes the characters with the numbers of these values.
fn write_bytes(output: &mut Vec<u8>, row: &[Value]) -> Result<(), AllocError>
    ensures { OnOk result (output.new.items ≡ output.old.items ++ map (λ v. byte_of (number_of v)) row.now) }
{
    for value in row {
        output.push(number_of(*value).byte())?;
    }
    Ok(())
}

// A character is set right in its width and never cut.
fn write_char(output: &mut Vec<u8>, number: Ordinal, width: Ordinal) -> Result<(), AllocError>
    ensures { OnOk result (output.new.items ≡ output.old.items ++ char_text number width) }
{
    indent(output, places_in(width).saturating_sub(1))?;
    output.push(number.byte())?;
    Ok(())
}

// An integer is set right in its width and never cut.
fn write_integer(
    alloc: Global,
    output: &mut Vec<u8>,
    number: Ordinal,
    width: Ordinal,
) -> Result<(), AllocError>
    ensures { OnOk result (output.new.items ≡ output.old.items ++ integer_text number width) }
{
    let digits = number.number().to_string(alloc)?;
    indent(output, places_in(width).saturating_sub(digits.len()))?;
    output.extend_from_slice(digits.as_bytes())
}

// A Boolean is written as a string.
fn write_boolean(
    alloc: Global,
    output: &mut Vec<u8>,
    number: Ordinal,
    width: Ordinal,
) -> Result<(), AllocError>
    ensures { OnOk result (output.new.items ≡ output.old.items ++ boolean_text number width) }
{
    let text = if number.is_true() { "true" } else { "false" };
    let row = row_of(alloc, text.as_bytes())?;
    write_row(output, &row, width)
}

// How many places a width gives.
fn places_in(width: Ordinal) -> usize
    ensures { result ≡ places width }
{
    usize::try_from(width.number()).unwrap_or(0)
}

// Writes spaces.
fn indent(output: &mut Vec<u8>, count: usize) -> Result<(), AllocError>
    ensures { OnOk result (output.new.items ≡ output.old.items ++ replicate count 32) }
{
    for _space in 0..count {
        output.push(b' ')?;
    }
    Ok(())
}
