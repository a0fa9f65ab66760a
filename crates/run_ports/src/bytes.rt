ghost use Rattle.std.specs.Prelude.{◌≡◌, ℕ, ◌+◌, ◌^◌, ◌-◌, ◌<◌, List, [], ◌∷◌, length, Option, None, if◌then◌else◌};
ghost use Rattle.std.specs.Io.{ReadsAtMost, WritesAtMost};
ghost use Rattle.std.specs.Io.KnownBytes.{Appends, ReadConsumes, WriteAppends};
ghost use Rattle.run_ports.specs.Failures.{read_count, read_failures, write_failures};
ghost use Rattle.run_ports.specs.Seen.{Feeds, Sunk};

use std::io;
use std::io::{ErrorKind, Read, Write};

/// Where a run gets its input.
pub trait Feed {
    /// What is seen of it.
    ghost fed: { Self → Feeds };
    /// How many bytes it gave so far: fewer than 2^64.
    ghost given: { Self → ℕ };

    /// Puts the next bytes into the piece and answers their number; none are left where it answers 0 for
    /// a piece that isn't empty.
    fn read(&mut self, piece: &mut [u8]) -> io::Result<usize>
        requires { (fed self.old).failures < 2 ^ 64 - 1 }
        ensures bound { ReadsAtMost result piece.new }
        ensures bytes { ReadConsumes (fed self.old).remaining (fed self.new).remaining result piece.new }
        ensures asked { Appends (fed self.old).asked (fed self.new).asked (read_count result ∷ []) }
        ensures given { given self.new ≡ given self.old + read_count result }
        ensures few { given self.new < 2 ^ 64 }
        ensures counted { (fed self.new).failures ≡ (fed self.old).failures + read_failures result };
}

/// Where a run writes its output.
pub trait Sink {
    /// What is seen of it.
    ghost got: { Self → Sunk };

    /// Takes bytes from the front of the piece and answers their number.
    fn write(&mut self, piece: &[u8]) -> io::Result<usize>
        requires { (got self.old).failures < 2 ^ 64 - 1 }
        ensures bound { WritesAtMost result piece.now }
        ensures bytes { WriteAppends (got self.old).contents (got self.new).contents result piece.now }
        ensures offered { Appends (got self.old).offered (got self.new).offered (length piece.now ∷ []) }
        ensures counted { (got self.new).failures ≡ (got self.old).failures + write_failures piece.now result };
}

/// A reader or a writer with a count of its failures.
#[derive(Drop)]
pub struct Counted<T> {
    inner: T,
    failures: u64,
    /// How many bytes a reader gave.
    given: u64,
}

impl<T> Counted<T> {
    ghost use Rattle.run_ports.specs.Counted.{inner_of, failure_count};

    /// Without a failure so far.
    pub fn new(inner: T) -> Counted<T>
        ensures inner { inner_of result ≡ inner }
        ensures failures { failure_count result ≡ 0 }
    {
        Counted {
            inner,
            failures: 0,
            given: 0,
        }
    }

    /// How many calls have failed.
    pub fn failures(&self) -> u64
        ensures { result ≡ failure_count self.now }
    {
        self.failures
    }

    /// The reader or writer itself.
    pub fn inner(&self) -> &T
        ensures { result.now ≡ inner_of self.now }
    {
        &self.inner
    }

    /// The reader or writer itself, its count gone.
    pub fn into_inner(self) -> T
        ensures { result ≡ inner_of self }
    {
        let Counted {
            inner,
            failures: _,
            given: _,
        } = self;
        inner
    }
}

impl<T: Read> Feed for Counted<T> {
    ghost fed = { λ c. record { remaining = T.remaining c.inner; asked = None; failures = c.failures } };

    ghost given = { λ c. c.given };

    /// Fails where the bytes that it gave and the piece together might be 2^64.
    fn read(&mut self, piece: &mut [u8]) -> io::Result<usize> {
        if piece.len() as u64 > u64::MAX - self.given {
            self.failures += 1;
            return Err(ErrorKind::FileTooLarge.into());
        }
        let taken = self.inner.read(piece);
        match &taken {
            Ok(count) => self.given += *count as u64,
            Err(_) => self.failures += 1,
        }
        taken
    }
}

impl<T: Write> Sink for Counted<T> {
    ghost got = { λ c. record { contents = T.contents c.inner; offered = None; failures = c.failures } };

    fn write(&mut self, piece: &[u8]) -> io::Result<usize> {
        let taken = self.inner.write(piece);
        self.failures += u64::from(is_failure(&taken, piece));
        taken
    }
}

/// Whether a write failed, or took no byte of a piece that isn't empty.
fn is_failure(taken: &io::Result<usize>, piece: &[u8]) -> bool
    ensures { write_failures piece.now taken.now ≡ (if result then 1 else 0) }
{
    match taken {
        Ok(count) => *count == 0 && !piece.is_empty(),
        Err(_) => true,
    }
}
