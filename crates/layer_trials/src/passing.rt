//! Whether a counted reader and a counted writer pass on each call once, with its piece, and answer what they get.

ghost use Rattle.std.specs.Prelude.{◌≤◌, IfOk};

use stack_machine::bytes::{Counted, Feed, Sink};
use std::alloc::AllocError;
use std::io;
use std::io::ErrorKind;

/// The longest piece that a run takes or offers.
const LONGEST: usize = 4096;

/// A piece by which 4 GiB are there soon: 1 MiB.
const LONG: usize = 1048576;

/// How many calls for such a piece: 4,096 of them are answered with the whole piece, and as many with a third of it.
const CALLS: u64 = 16384;

/// A reader and a writer that answers its calls in turn: with the whole piece, a part of it, no byte, and a failure.
#[derive(Drop)]
struct InTurn {
    calls: u64,
    /// How long the last piece was.
    last: usize,
}

impl InTurn {
    /// Before the first call.
    fn new() -> InTurn {
        InTurn { calls: 0, last: 0 }
    }

    /// What the next call answers for a piece: how many bytes, or nothing where it fails.
    fn answer(&self, length: usize) -> Option<usize> {
        match self.calls % 4 {
            0 => Some(length),
            1 => Some(length / 3),
            2 => Some(0),
            _ => None,
        }
    }

    /// Takes a call for a piece.
    fn called(&mut self, length: usize) -> io::Result<usize>
        ensures { IfOk result (λ count. count ≤ length) }
    {
        let answer = self.answer(length);
        self.calls = self.calls.wrapping_add(1);
        self.last = length;
        match answer {
            Some(count) if count <= length => Ok(count),
            _ => Err(ErrorKind::TimedOut.into()),
        }
    }
}

impl io::Read for InTurn {
    fn read(&mut self, piece: &mut [u8]) -> io::Result<usize> {
        let answer = self.called(piece.len());
        if let Some(first) = piece.first_mut() {
            *first = mark(self.calls);
        }
        answer
    }
}

impl io::Write for InTurn {
    fn write(&mut self, piece: &[u8]) -> io::Result<usize> {
        self.called(piece.len())
    }

    fn flush(&mut self) -> io::Result<()> {
        Ok(())
    }
}

/// The byte that a call puts at the front of a piece.
fn mark(calls: u64) -> u8 {
    (calls % 256) as u8
}

/// Whether a call was passed on: it was one call with this piece, and this is its answer.
fn is_passed(
    before: u64,
    length: usize,
    wanted: Option<usize>,
    inner: &InTurn,
    given: &io::Result<usize>,
) -> bool {
    let answered = match given {
        Ok(count) => wanted == Some(*count),
        Err(error) => wanted.is_none() && matches!(error.kind(), ErrorKind::TimedOut),
    };
    answered && inner.calls == before.wrapping_add(1) && inner.last == length
}

/// Whether a counted reader passes on a call, with the bytes that it is given.
fn reads(reader: &mut Counted<InTurn>, piece: &mut [u8]) -> bool {
    if reader.failures() == u64::MAX {
        return false;
    }
    let before = reader.inner().calls;
    let wanted = reader.inner().answer(piece.len());
    let given = reader.read(piece);
    let is_given = match piece.first() {
        Some(first) => *first == mark(before.wrapping_add(1)),
        None => true,
    };
    is_given && is_passed(before, piece.len(), wanted, reader.inner(), &given)
}

/// Whether a counted writer passes on a call.
fn writes(writer: &mut Counted<InTurn>, piece: &[u8]) -> bool {
    if writer.failures() == u64::MAX {
        return false;
    }
    let before = writer.inner().calls;
    let wanted = writer.inner().answer(piece.len());
    let given = writer.write(piece);
    is_passed(before, piece.len(), wanted, writer.inner(), &given)
}

#[test]
fn a_reader_passes_each_call_on(rt: HostRuntime) {
    let mut reader = Counted::new(InTurn::new());
    let mut piece = [0u8; LONGEST];
    for length in 0..=LONGEST {
        for _answer in 0..4 {
            assert!(rt; reads(&mut reader, &mut piece[..length]));
        }
    }
    // Each length has one call that fails.
    assert!(rt; reader.failures() == 4097 && reader.inner().calls == 16388);
}

#[test]
fn a_writer_passes_each_call_on(rt: HostRuntime) {
    let mut writer = Counted::new(InTurn::new());
    let piece = [0u8; LONGEST];
    for length in 0..=LONGEST {
        for _answer in 0..4 {
            assert!(rt; writes(&mut writer, &piece[..length]));
        }
    }
    // And one that takes no byte, which is no failure of an empty piece; a third of less than three bytes is none too.
    assert!(rt; writer.failures() == 8195 && writer.inner().calls == 16388);
}

// Bytes that are given or taken are counted in more than 32 bits, where they are counted.
#[test]
fn a_reader_passes_each_call_on_behind_4_gib(rt: HostRuntime) -> Result<(), AllocError> {
    let mut reader = Counted::new(InTurn::new());
    let mut piece = vec![in rt.alloc(); 0; LONG]?;
    for _call in 0..CALLS {
        assert!(rt; reads(&mut reader, piece.as_mut_slice()));
    }
    assert!(rt; reader.failures() == 4096 && reader.inner().calls == CALLS);
    Ok(())
}

#[test]
fn a_writer_passes_each_call_on_behind_4_gib(rt: HostRuntime) -> Result<(), AllocError> {
    let mut writer = Counted::new(InTurn::new());
    let piece = vec![in rt.alloc(); 0; LONG]?;
    for _call in 0..CALLS {
        assert!(rt; writes(&mut writer, piece.as_slice()));
    }
    assert!(rt; writer.failures() == 8192 && writer.inner().calls == CALLS);
    Ok(())
}
