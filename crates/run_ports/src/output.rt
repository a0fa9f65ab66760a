ghost use Rattle.std.specs.Prelude.{◌≡◌, ◌+◌, ◌^◌, ◌-◌, ◌<◌, [], ◌∷◌, replicate, length, IfOk, IsOk};
ghost use Rattle.std.specs.Prelude.{vec_len};
ghost use Rattle.run_ports.specs.declared.output.TheConstants.{PIECE};
ghost use Rattle.run_ports.specs.Ports.{AppendsOrLoses, Offers, PassesOrLoses, piece_of, write_failures_in};

use crate::bytes::Sink;
use crate::fault::WriteFailed;
use std::alloc::{AllocError, Global};

/// How many bytes a piece holds.
pub const PIECE: usize = 4096;

/// The output that a run holds back: it goes out when the piece is full and at every stop.
#[derive(Drop)]
pub struct Output {
    bytes: Vec<u8>,
    held: usize,
    ghost whole: { vec_len bytes ≡ PIECE },
    ghost within: { held < PIECE },
}

impl Output {
    ghost use Rattle.run_ports.specs.Output.{held_by, ports};

    /// Holds nothing.
    pub fn new(alloc: Global) -> Result<Output, AllocError>
        ensures { IfOk result (λ output. output.held ≡ 0) }
    {
        Ok(Output {
            bytes: vec![in alloc; 0; PIECE]?,
            held: 0,
        })
    }

    /// Forgets what it holds.
    pub fn clear(&mut self)
        ensures { self.new.held ≡ 0 }
    {
        self.held = 0;
    }

    /// Takes a byte; a piece that is full by it goes out.
    pub fn put<W: Sink>(&mut self, byte: u8, writer: &mut W) -> Result<(), WriteFailed>
        requires { (W.got writer.old).failures < 2 ^ 64 - 1 }
        ensures failures { (W.got writer.new).failures ≡ (W.got writer.old).failures + write_failures_in result }
        ensures bytes { PassesOrLoses result (ports (W.got writer.old) self.old)
            (ports (W.got writer.new) self.new) (byte ∷ []) }
    {
        let held = self.held;
        self.bytes[held] = byte;
        if held + 1 == PIECE {
            self.held = 0;
            return write_all(self.bytes.as_slice(), writer);
        }
        self.held = held + 1;
        Ok(())
    }

    /// Takes these bytes in turn.
    pub fn put_all<W: Sink>(&mut self, bytes: &[u8], writer: &mut W) -> Result<(), WriteFailed>
        requires { (W.got writer.old).failures < 2 ^ 64 - 1 }
        ensures failures { (W.got writer.new).failures ≡ (W.got writer.old).failures + write_failures_in result }
        ensures bytes { PassesOrLoses result (ports (W.got writer.old) self.old)
            (ports (W.got writer.new) self.new) bytes.now }
    {
        for byte in bytes {
            self.put(*byte, writer)?;
        }
        Ok(())
    }

    /// Takes so many blanks.
    pub fn put_blanks<W: Sink>(&mut self, count: usize, writer: &mut W) -> Result<(), WriteFailed>
        requires { (W.got writer.old).failures < 2 ^ 64 - 1 }
        ensures failures { (W.got writer.new).failures ≡ (W.got writer.old).failures + write_failures_in result }
        ensures bytes { PassesOrLoses result (ports (W.got writer.old) self.old)
            (ports (W.got writer.new) self.new) (replicate count 32) }
    {
        for _blank in 0..count {
            self.put(b' ', writer)?;
        }
        Ok(())
    }

    /// What it holds goes out, if it holds anything.
    pub fn write_out<W: Sink>(&mut self, writer: &mut W) -> Result<(), WriteFailed>
        requires { (W.got writer.old).failures < 2 ^ 64 - 1 }
        ensures failures { (W.got writer.new).failures ≡ (W.got writer.old).failures + write_failures_in result }
        ensures bytes { AppendsOrLoses result (W.got writer.old).contents (W.got writer.new).contents
            (held_by self.old) }
        ensures pieces { IfOk result
            (λ _. Offers (W.got writer.old).offered (W.got writer.new).offered (piece_of self.old.held)) }
        ensures nothing_held { self.new.held ≡ 0 }
        ensures nothing_lost { self.old.held ≡ 0 → IsOk result }
    {
        let held = self.held;
        self.held = 0;
        write_all(&self.bytes.as_slice()[..held], writer)
    }
}

/// Writes the piece, in the parts that the writer takes.
fn write_all<W: Sink>(piece: &[u8], writer: &mut W) -> Result<(), WriteFailed>
    requires { (W.got writer.old).failures < 2 ^ 64 - 1 }
    ensures failures { (W.got writer.new).failures ≡ (W.got writer.old).failures + write_failures_in result }
    ensures bytes { AppendsOrLoses result (W.got writer.old).contents (W.got writer.new).contents piece.now }
    ensures pieces { IfOk result
        (λ _. Offers (W.got writer.old).offered (W.got writer.new).offered (piece_of (length piece.now))) }
    ensures nothing_lost { length piece.now ≡ 0 → IsOk result }
{
    let mut rest = piece;
    while !rest.is_empty() {
        match writer.write(rest) {
            Ok(count) if count > 0 => rest = &rest[count..],
            _ => return Err(WriteFailed),
        }
    }
    Ok(())
}
