ghost use Rattle.std.specs.Prelude.{◌≡◌, ℕ, ◌+◌, ◌^◌, ◌-◌, ◌<◌, ◌≤◌, false, if◌then◌else◌, nat_eq, drop, take};
ghost use Rattle.std.specs.Prelude.{vec_len};
ghost use Rattle.std.specs.Prelude.{IsOkUnless, MatchOption, ◌∷◌};
ghost use Rattle.run_ports.specs.declared.fault.ReadStop.TheVariants.{ReadFailed};
ghost use Rattle.run_ports.specs.declared.output.TheConstants.{PIECE};

use crate::bytes::Feed;
use crate::fault::ReadStop;
use crate::output::PIECE;
use std::alloc::{AllocError, Global};

/// The piece of the input that a run holds.
#[derive(Drop)]
pub struct Input {
    bytes: Vec<u8>,
    /// The index of the next byte.
    next: usize,
    /// How many bytes of the piece the reader gave, the line end that was missing included.
    held: usize,
    /// Whether the bytes so far end within a line.
    is_in_line: bool,
    /// Whether the reader was at its end.
    is_at_end: bool,
    ghost whole: { vec_len bytes ≡ PIECE },
    ghost before: { next ≤ held },
    ghost within: { held ≤ PIECE },
}

impl Input {
    ghost use Rattle.run_ports.specs.Feeding.{Source, left, readable, window};
    ghost use Rattle.run_ports.specs.Reads.{read_failures_in};
    ghost use Rattle.run_ports.specs.Steps.{Fills, InputTakes, may_take};

    /// Holds nothing.
    pub fn new(alloc: Global) -> Result<Input, AllocError> {
        Ok(Input {
            bytes: vec![in alloc; 0; PIECE]?,
            next: 0,
            held: 0,
            is_in_line: false,
            is_at_end: false,
        })
    }

    /// Forgets all.
    pub fn begin(&mut self)
        ensures left { (source : Source) → left self.new source ≡ readable source }
        ensures not_at_end { self.new.is_at_end ≡ false }
    {
        self.next = 0;
        self.held = 0;
        self.is_in_line = false;
        self.is_at_end = false;
    }

    /// Whether the reader has to be asked for the next byte.
    pub fn is_spent(&self) -> bool
        ensures { result ≡ (if self.now.is_at_end then false else nat_eq self.now.next self.now.held) }
    {
        !self.is_at_end && self.next == self.held
    }

    /// The next of the bytes that are held.
    pub fn first(&self) -> Option<u8>
        ensures { MatchOption result (self.now.next ≡ self.now.held)
            (λ byte. (window self.now ≡ byte ∷ drop (self.now.next + 1) (take self.now.held self.now.bytes.items))
            × (self.now.next < self.now.held)) }
    {
        if self.next < self.held {
            Some(self.bytes[self.next])
        } else {
            None
        }
    }

    /// Goes past it.
    pub fn take(&mut self)
        requires { self.old.next < self.old.held }
        ensures takes { InputTakes self.old self.new }
        ensures may_take { (given : ℕ) → may_take self.new given < may_take self.old given }
    {
        self.next += 1;
    }

    /// Asks the reader for the next piece. A line that has begun is ended at its end, but not behind a failure.
    pub fn fill<R: Feed>(&mut self, reader: &mut R) -> Result<(), ReadStop>
        requires counts { (R.fed reader.old).failures < 2 ^ 64 - 1 }
        requires spent { self.old.next ≡ self.old.held }
        requires not_at_end { self.old.is_at_end ≡ false }
        ensures fills { Fills result self.old self.new
            (R.fed reader.old)
            (R.fed reader.new) }
        ensures only { IsOkUnless result ReadFailed }
        ensures failures { (R.fed reader.new).failures ≡ (R.fed reader.old).failures + read_failures_in result }
        ensures may_take { may_take self.new (R.given reader.new) ≤ may_take self.old (R.given reader.old) }
    {
        self.next = 0;
        self.held = 0;
        let Ok(count) = reader.read(self.bytes.as_mut_slice()) else {
            return Err(ReadStop::ReadFailed);
        };
        if count > 0 {
            self.held = count;
            self.is_in_line = self.bytes[count - 1] != b'\n';
            return Ok(());
        }
        self.is_at_end = true;
        if self.is_in_line {
            self.bytes[0] = b'\n';
            self.held = 1;
        }
        Ok(())
    }
}
