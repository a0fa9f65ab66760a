ghost use Rattle.std.specs.Prelude.{◌≡◌, ℕ, ◌+◌, ◌^◌, ◌-◌, ◌<◌, ◌≤◌, List, [], ◌∷◌, Bool, false, replicate, min, IfOk};
ghost use Rattle.std.specs.Prelude.{IfSome, pos};
ghost use Rattle.text_input.specs.Input.{character, digits, number, read_integer, read_line};
ghost use Rattle.run_ports.specs.Feeding.{Source, left, readable};
ghost use Rattle.run_ports.specs.Output.{held_by, ports};
ghost use Rattle.run_ports.specs.Ports.{AppendsOrLoses, Offers, PassesOrLoses, piece_of, write_failures_in};
ghost use Rattle.run_ports.specs.Reads.{Answers, Reads, lost_in, read_failures_in};
ghost use Rattle.run_ports.specs.Steps.{byte_taken, looked_at, may_take, peeked, sign_taken};
ghost use Rattle.run_ports.specs.Wanted.{read_wanted, read_with};

use crate::bytes::{Feed, Sink};
use crate::fault::{ReadStop, WriteFailed};
use crate::input::Input;
use crate::output::Output;
use crate::wanted::Wanted;
use std::alloc::{AllocError, Global};
use text_input::InputFault;

/// One above the greatest integer: it stands for each number that is too large.
const TOO_LARGE: u64 = 2147483648;

/// What a run holds of its input and of its output.
#[derive(Drop)]
pub struct RunPorts {
    input: Input,
    output: Output,
}

impl RunPorts {
    /// Holds nothing.
    pub fn new(alloc: Global) -> Result<RunPorts, AllocError> {
        Ok(RunPorts {
            input: Input::new(alloc)?,
            output: Output::new(alloc)?,
        })
    }

    /// Forgets what it holds.
    pub fn begin(&mut self)
        ensures input { (source : Source) → left self.new.input source ≡ readable source }
        ensures not_at_end { self.new.input.is_at_end ≡ false }
        ensures nothing_held { self.new.output.held ≡ 0 }
    {
        self.input.begin();
        self.output.clear();
    }

    /// Takes a byte of the output; a piece that is full by it goes out.
    pub fn put<W: Sink>(&mut self, byte: u8, writer: &mut W) -> Result<(), WriteFailed>
        requires { (W.got writer.old).failures < 2 ^ 64 - 1 }
        ensures failures { (W.got writer.new).failures ≡ (W.got writer.old).failures + write_failures_in result }
        ensures bytes { PassesOrLoses result (ports (W.got writer.old) self.old.output)
            (ports (W.got writer.new) self.new.output) (byte ∷ []) }
        ensures input { self.new.input ≡ self.old.input }
    {
        self.output.put(byte, writer)
    }

    /// Takes these bytes of the output in turn.
    pub fn put_all<W: Sink>(&mut self, bytes: &[u8], writer: &mut W) -> Result<(), WriteFailed>
        requires { (W.got writer.old).failures < 2 ^ 64 - 1 }
        ensures failures { (W.got writer.new).failures ≡ (W.got writer.old).failures + write_failures_in result }
        ensures bytes { PassesOrLoses result (ports (W.got writer.old) self.old.output)
            (ports (W.got writer.new) self.new.output) bytes.now }
        ensures input { self.new.input ≡ self.old.input }
    {
        self.output.put_all(bytes, writer)
    }

    /// Takes so many blanks.
    pub fn put_blanks<W: Sink>(&mut self, count: usize, writer: &mut W) -> Result<(), WriteFailed>
        requires { (W.got writer.old).failures < 2 ^ 64 - 1 }
        ensures failures { (W.got writer.new).failures ≡ (W.got writer.old).failures + write_failures_in result }
        ensures bytes { PassesOrLoses result (ports (W.got writer.old) self.old.output)
            (ports (W.got writer.new) self.new.output) (replicate count 32) }
        ensures input { self.new.input ≡ self.old.input }
    {
        self.output.put_blanks(count, writer)
    }

    /// What it holds of the output goes out, if it holds anything.
    pub fn write_out<W: Sink>(&mut self, writer: &mut W) -> Result<(), WriteFailed>
        requires { (W.got writer.old).failures < 2 ^ 64 - 1 }
        ensures failures { (W.got writer.new).failures ≡ (W.got writer.old).failures + write_failures_in result }
        ensures bytes { AppendsOrLoses result (W.got writer.old).contents (W.got writer.new).contents
            (held_by self.old.output) }
        ensures pieces { IfOk result
            (λ _. Offers (W.got writer.old).offered (W.got writer.new).offered (piece_of self.old.output.held)) }
        ensures nothing_held { self.new.output.held ≡ 0 }
        ensures input { self.new.input ≡ self.old.input }
    {
        self.output.write_out(writer)
    }

    /// Reads what is wanted, as a number.
    pub fn read<R: Feed, W: Sink>(
        &mut self,
        wanted: Wanted,
        reader: &mut R,
        writer: &mut W,
    ) -> Result<i32, ReadStop>
        requires reader_counts { (R.fed reader.old).failures < 2 ^ 64 - 1 }
        requires writer_counts { (W.got writer.old).failures < 2 ^ 64 - 1 }
        ensures reads { Reads (read_wanted wanted) result self.old self.new
            (R.fed reader.old)
            (R.fed reader.new)
            (ports (W.got writer.old) self.old.output)
            (ports (W.got writer.new) self.new.output) }
        ensures read_failures { (R.fed reader.new).failures ≡ (R.fed reader.old).failures + read_failures_in result }
        ensures write_failures { (W.got writer.new).failures ≡ (W.got writer.old).failures + lost_in result }
    {
        match wanted {
            Wanted::Integer => self.read_integer(reader, writer),
            Wanted::Character => character_of(self.next_byte(reader, writer)?),
            Wanted::LineEnd => Ok(i32::from(self.look(reader, writer)? == b'\n')),
            Wanted::NextLine => {
                self.pass_line(reader, writer)?;
                Ok(0)
            }
            Wanted::End => Ok(i32::from(self.peek(reader, writer)?.is_none())),
        }
    }

    /// Reads an integer behind blanks and line ends (ISO 7185:1990, 6.9.1); the byte behind its digits is looked at.
    fn read_integer<R: Feed, W: Sink>(
        &mut self,
        reader: &mut R,
        writer: &mut W,
    ) -> Result<i32, ReadStop>
        requires reader_counts { (R.fed reader.old).failures < 2 ^ 64 - 1 }
        requires writer_counts { (W.got writer.old).failures < 2 ^ 64 - 1 }
        ensures reads { Reads (λ fails. read_integer) result self.old self.new
            (R.fed reader.old)
            (R.fed reader.new)
            (ports (W.got writer.old) self.old.output)
            (ports (W.got writer.new) self.new.output) }
        ensures read_failures { (R.fed reader.new).failures ≡ (R.fed reader.old).failures + read_failures_in result }
        ensures write_failures { (W.got writer.new).failures ≡ (W.got writer.old).failures + lost_in result }
    {
        let is_negative = self.pass_sign(reader, writer)?;
        if !self.look(reader, writer)?.is_ascii_digit() {
            return Err(ReadStop::Input(InputFault::NotANumber));
        }
        self.digits(is_negative, reader, writer)
    }

    /// Passes the next line end, with what stands before it (ISO 7185:1990, 6.9.2).
    fn pass_line<R: Feed, W: Sink>(
        &mut self,
        reader: &mut R,
        writer: &mut W,
    ) -> Result<(), ReadStop>
        requires reader_counts { (R.fed reader.old).failures < 2 ^ 64 - 1 }
        requires writer_counts { (W.got writer.old).failures < 2 ^ 64 - 1 }
        ensures reads { Reads (λ fails. read_line) result self.old self.new
            (R.fed reader.old)
            (R.fed reader.new)
            (ports (W.got writer.old) self.old.output)
            (ports (W.got writer.new) self.new.output) }
        ensures read_failures { (R.fed reader.new).failures ≡ (R.fed reader.old).failures + read_failures_in result }
        ensures write_failures { (W.got writer.new).failures ≡ (W.got writer.old).failures + lost_in result }
    {
        loop {
            if self.next_byte(reader, writer)? == b'\n' {
                return Ok(());
            }
        }
    }

    /// Passes blanks, line ends and a sign, and answers whether it is a minus.
    fn pass_sign<R: Feed, W: Sink>(
        &mut self,
        reader: &mut R,
        writer: &mut W,
    ) -> Result<bool, ReadStop>
        requires reader_counts { (R.fed reader.old).failures < 2 ^ 64 - 1 }
        requires writer_counts { (W.got writer.old).failures < 2 ^ 64 - 1 }
        ensures reads { Reads (λ fails. sign_taken) result self.old self.new
            (R.fed reader.old)
            (R.fed reader.new)
            (ports (W.got writer.old) self.old.output)
            (ports (W.got writer.new) self.new.output) }
        ensures read_failures { (R.fed reader.new).failures ≡ (R.fed reader.old).failures + read_failures_in result }
        ensures write_failures { (W.got writer.new).failures ≡ (W.got writer.old).failures + lost_in result }
    {
        loop {
            match self.look(reader, writer)? {
                b' ' | b'\n' => self.input.take(),
                b'-' => {
                    self.input.take();
                    return Ok(true);
                }
                b'+' => {
                    self.input.take();
                    return Ok(false);
                }
                _ => return Ok(false),
            }
        }
    }

    /// The number that the digits make, if any, with its sign.
    fn digits<R: Feed, W: Sink>(
        &mut self,
        is_negative: bool,
        reader: &mut R,
        writer: &mut W,
    ) -> Result<i32, ReadStop>
        requires reader_counts { (R.fed reader.old).failures < 2 ^ 64 - 1 }
        requires writer_counts { (W.got writer.old).failures < 2 ^ 64 - 1 }
        ensures reads { Reads (λ fails. digits is_negative 0) result self.old self.new
            (R.fed reader.old)
            (R.fed reader.new)
            (ports (W.got writer.old) self.old.output)
            (ports (W.got writer.new) self.new.output) }
        ensures read_failures { (R.fed reader.new).failures ≡ (R.fed reader.old).failures + read_failures_in result }
        ensures write_failures { (W.got writer.new).failures ≡ (W.got writer.old).failures + lost_in result }
    {
        let mut magnitude = 0;
        loop {
            let byte = self.look(reader, writer)?;
            if !byte.is_ascii_digit() {
                return number_of(is_negative, magnitude);
            }
            self.input.take();
            magnitude = (magnitude * 10 + u64::from(byte - b'0')).min(TOO_LARGE);
        }
    }

    /// Takes the next byte.
    fn next_byte<R: Feed, W: Sink>(
        &mut self,
        reader: &mut R,
        writer: &mut W,
    ) -> Result<u8, ReadStop>
        requires reader_counts { (R.fed reader.old).failures < 2 ^ 64 - 1 }
        requires writer_counts { (W.got writer.old).failures < 2 ^ 64 - 1 }
        ensures reads { Reads (λ fails. byte_taken) result self.old self.new
            (R.fed reader.old)
            (R.fed reader.new)
            (ports (W.got writer.old) self.old.output)
            (ports (W.got writer.new) self.new.output) }
        ensures read_failures { (R.fed reader.new).failures ≡ (R.fed reader.old).failures + read_failures_in result }
        ensures write_failures { (W.got writer.new).failures ≡ (W.got writer.old).failures + lost_in result }
        ensures may_take { IfOk result
            (λ _. may_take self.new.input (R.given reader.new) < may_take self.old.input (R.given reader.old)) }
    {
        let next = self.look(reader, writer)?;
        self.input.take();
        Ok(next)
    }

    /// The next byte, which is needed.
    fn look<R: Feed, W: Sink>(&mut self, reader: &mut R, writer: &mut W) -> Result<u8, ReadStop>
        requires reader_counts { (R.fed reader.old).failures < 2 ^ 64 - 1 }
        requires writer_counts { (W.got writer.old).failures < 2 ^ 64 - 1 }
        ensures reads { Reads (λ fails. looked_at) result self.old self.new
            (R.fed reader.old)
            (R.fed reader.new)
            (ports (W.got writer.old) self.old.output)
            (ports (W.got writer.new) self.new.output) }
        ensures read_failures { (R.fed reader.new).failures ≡ (R.fed reader.old).failures + read_failures_in result }
        ensures write_failures { (W.got writer.new).failures ≡ (W.got writer.old).failures + lost_in result }
        ensures may_take { may_take self.new.input (R.given reader.new) ≤ may_take self.old.input (R.given reader.old) }
        ensures held { IfOk result (λ _. self.new.input.next < self.new.input.held) }
    {
        match self.peek(reader, writer)? {
            Some(byte) => Ok(byte),
            None => Err(ReadStop::Input(InputFault::EndOfInput)),
        }
    }

    /// The next byte, if one is left. The reader is asked where none is held, and the output goes out before.
    fn peek<R: Feed, W: Sink>(
        &mut self,
        reader: &mut R,
        writer: &mut W,
    ) -> Result<Option<u8>, ReadStop>
        requires reader_counts { (R.fed reader.old).failures < 2 ^ 64 - 1 }
        requires writer_counts { (W.got writer.old).failures < 2 ^ 64 - 1 }
        ensures reads { Reads peeked result self.old self.new
            (R.fed reader.old)
            (R.fed reader.new)
            (ports (W.got writer.old) self.old.output)
            (ports (W.got writer.new) self.new.output) }
        ensures read_failures { (R.fed reader.new).failures ≡ (R.fed reader.old).failures + read_failures_in result }
        ensures write_failures { (W.got writer.new).failures ≡ (W.got writer.old).failures + lost_in result }
        ensures may_take { may_take self.new.input (R.given reader.new) ≤ may_take self.old.input (R.given reader.old) }
        ensures held { IfOk result (λ byte. IfSome byte (λ _. self.new.input.next < self.new.input.held)) }
    {
        if self.input.is_spent() {
            self.output.write_out(writer)?;
            self.input.fill(reader)?;
        }
        Ok(self.input.first())
    }
}

/// An integer of this sign, if it isn't too large.
fn number_of(is_negative: bool, magnitude: u64) -> Result<i32, ReadStop>
    ensures value { (n : ℕ) (fails : Bool) (rest : List ℕ) → magnitude ≡ min n 2147483648
        → Answers result (number is_negative n rest) fails rest }
    ensures no_failure { (read_failures_in result ≡ 0) × (lost_in result ≡ 0) }
{
    match i32::try_from(magnitude) {
        Ok(value) if is_negative => Ok(-value),
        Ok(value) => Ok(value),
        Err(_) => Err(ReadStop::Input(InputFault::NumberTooLarge)),
    }
}

/// The number of the character that a byte is: of a blank at the end of a line.
fn character_of(byte: u8) -> Result<i32, ReadStop>
    ensures value { (fails : Bool) (rest : List ℕ) →
        Answers result (read_with pos (character byte rest)) fails rest }
    ensures no_failure { (read_failures_in result ≡ 0) × (lost_in result ≡ 0) }
{
    match byte {
        b'\n' => Ok(i32::from(b' ')),
        0..=127 => Ok(i32::from(byte)),
        _ => Err(ReadStop::Input(InputFault::NotACharacter)),
    }
}
