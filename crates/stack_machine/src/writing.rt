ghost use Rattle.std.specs.Prelude.{◌≡◌, ◌+◌, ◌^◌, ◌-◌, ◌<◌, ◌++◌, replicate};
ghost use Rattle.run_ports.specs.Output.{ports};
ghost use Rattle.run_ports.specs.Ports.{PassesOrLoses, write_failures_in};
ghost use Rattle.stack_machine.specs.Texts as texts;
ghost use Rattle.stack_machine.specs.Texts.{characters};

use crate::{Form, number_of};
use itoa::Buffer;
use machine_arithmetic::arithmetic::is_true;
use run_ports::bytes::Sink;
use run_ports::fault::WriteFailed;
use run_ports::ports::RunPorts;

/// Writes a number in this form, set right in as many places as the width says.
pub fn put_value<W: Sink>(
    to: &mut RunPorts,
    form: Form,
    value: i32,
    width: i32,
    writer: &mut W,
) -> Result<(), WriteFailed>
    requires { (W.got writer.old).failures < 2 ^ 64 - 1 }
    ensures failures { (W.got writer.new).failures ≡ (W.got writer.old).failures + write_failures_in result }
    ensures bytes { PassesOrLoses result (ports (W.got writer.old) to.old.output)
        (ports (W.got writer.new) to.new.output) (texts.text_of form value width) }
    ensures input { to.new.input ≡ to.old.input }
{
    match form {
        Form::Integer => {
            let mut buffer = Buffer::new();
            let text = buffer.format(value).as_bytes();
            put_after_blanks(to, blanks_before(text.len(), width), text, writer)
        }
        Form::Character => {
            put_after_blanks(to, blanks_before(1, width), &[byte_of(value)], writer)
        }
        Form::Boolean => {
            let text = word_of(value).as_bytes();
            let shown = text.len().min(places_of(width));
            put_after_blanks(to, blanks_before(text.len(), width), &text[..shown], writer)
        }
    }
}

/// Writes the string of the characters in these words, set right in as many places as the width says, or its first
/// characters where it is longer (ISO 7185:1990, 6.9.3.6).
pub fn put_string<W: Sink>(
    to: &mut RunPorts,
    words: &[u64],
    width: i32,
    writer: &mut W,
) -> Result<(), WriteFailed>
    requires { (W.got writer.old).failures < 2 ^ 64 - 1 }
    ensures failures { (W.got writer.new).failures ≡ (W.got writer.old).failures + write_failures_in result }
    ensures bytes { PassesOrLoses result (ports (W.got writer.old) to.old.output)
        (ports (W.got writer.new) to.new.output)
        (texts.string_text (characters words.now) width) }
    ensures input { to.new.input ≡ to.old.input }
{
    let shown = words.len().min(places_of(width));
    to.put_blanks(blanks_before(words.len(), width), writer)?;
    for word in &words[..shown] {
        to.put(byte_of(number_of(*word)), writer)?;
    }
    Ok(())
}

/// Writes so many blanks and then the text.
fn put_after_blanks<W: Sink>(
    to: &mut RunPorts,
    blanks: usize,
    text: &[u8],
    writer: &mut W,
) -> Result<(), WriteFailed>
    requires { (W.got writer.old).failures < 2 ^ 64 - 1 }
    ensures failures { (W.got writer.new).failures ≡ (W.got writer.old).failures + write_failures_in result }
    ensures bytes { PassesOrLoses result (ports (W.got writer.old) to.old.output)
        (ports (W.got writer.new) to.new.output) (replicate blanks 32 ++ text.now) }
    ensures input { to.new.input ≡ to.old.input }
{
    to.put_blanks(blanks, writer)?;
    to.put_all(text, writer)
}

/// How many blanks stand before a text of this length in so many places.
fn blanks_before(length: usize, width: i32) -> usize
    ensures { result ≡ texts.blanks_of length width }
{
    places_of(width).saturating_sub(length)
}

/// The string of a Boolean value, `true` for every number but 0 (ISO 7185:1990, 6.9.3.5).
fn word_of(value: i32) -> &'static str
    ensures { result.now ≡ texts.word_of value }
{
    if is_true(value) { "true" } else { "false" }
}

/// The byte of a character: the lowest 8 bits of its number.
fn byte_of(value: i32) -> u8
    ensures { result ≡ texts.byte_of value }
{
    (value.cast_unsigned() & 0xff) as u8
}

/// How many places a width has: none where it is below 1.
fn places_of(width: i32) -> usize
    ensures { result ≡ texts.places_of width }
{
    usize::try_from(width).unwrap_or(0)
}
