//! Runs over writers that take a part of what they are offered, and over writers that fail.

use report::fault::Fault;
use report::go;
use stack_machine::Stop;
use stack_machine::bytes::Counted;
use std::alloc::Global;
use std::io;
use std::io::ErrorKind;
use std::test::Fail;

// A source, its certificate, an input, and what it writes.
#[derive(Clone, Copy)]
struct Program<'a> {
    source: &'static str,
    claims: &'static str,
    input: &'static str,
    output: &'a [u8],
}

// One that reads so many numbers as the first one says, and writes them.
const NUMBERS: Program<'static> = Program {
    source: "program p(input, output); var n: 1..100; i: integer; a: array [1..100] of integer;
    begin read(n); for i := 1 to n do read(a[i]); for i := 1 to n do write(a[i]) end.",
    claims: "pcert 1\nproc 0\nloop 0\nchange v2\nfact defined v2 1 v1-1\n",
    input: "2 5 7",
    output: b"         5         7",
};

// One that stops at its last value, a member of a set that is too large.
const MEMBERS: Program<'static> = Program {
    source: "program p(input, output); var k: 0..200; s: set of 0..9;
    begin read(k); s := [5..3]; write(s = [], 130 in s, k in [k]) end.",
    claims: "pcert 1\n",
    input: "150",
    output: b" truefalse",
};

// One that writes more than is held back.
const MANY: &str = "program p(output); var i: integer; begin for i := 1 to 5000 do write('x') end.";

// Takes so many bytes at a time, and fails at the call of a number, from 1; at none where that is 0.
#[derive(Drop)]
struct Taker<'a> {
    // What is still to come of what should be written.
    wanted: &'a [u8],
    at_once: usize,
    failing: u32,
    calls: u32,
    // How many bytes the last call offered.
    offered: usize,
    is_right: bool,
}

impl io::Write for Taker<'_> {
    fn write(&mut self, piece: &[u8]) -> io::Result<usize> {
        self.calls = self.calls.saturating_add(1);
        self.offered = piece.len();
        if self.calls == self.failing {
            return Err(io::Error::from(ErrorKind::Other));
        }
        let count = self.at_once.min(piece.len()).min(self.wanted.len());
        let (now, rest) = self.wanted.split_at(count);
        self.is_right = self.is_right && now == &piece[..count];
        self.wanted = rest;
        Ok(count)
    }

    fn flush(&mut self) -> io::Result<()> {
        Ok(())
    }
}

// Runs a program over a writer, and answers that and how the run stopped.
fn run_to<'a>(
    alloc: Global,
    program: Program<'a>,
    at_once: usize,
    failing: u32,
) -> Result<(Counted<Taker<'a>>, Stop), Fault> {
    let mut reader = Counted::new(program.input.as_bytes());
    let mut writer = Counted::new(Taker {
        wanted: program.output,
        at_once,
        failing,
        calls: 0,
        offered: 0,
        is_right: true,
    });
    let (_, stop) = go(
        alloc,
        program.source.as_bytes(),
        Some(program.claims.as_bytes()),
        &mut reader,
        &mut writer,
        4_000,
        u64::MAX,
    )?;
    Ok((writer, stop))
}

// Each call is offered all that is left, takes a byte, and the one that fails is the last.
#[test]
fn a_writer_that_fails_got_what_came_before(rt: HostRuntime) -> Result<(), Fail> {
    let whole = NUMBERS.output.len();
    for failing in 1..21u32 {
        let (writer, stop) = run_to(rt.alloc(), NUMBERS, 1, failing)?;
        let taker = writer.inner();
        let before = (failing as usize).saturating_sub(1);
        assert!(rt; matches!(stop, Stop::WriteFailed) && writer.failures() == 1);
        assert!(rt; taker.is_right && taker.calls == failing);
        assert!(rt; taker.wanted.len() == whole.saturating_sub(before));
        assert!(rt; taker.offered == whole.saturating_sub(before));
    }
    Ok(())
}

// The failure takes the place of the error. A writer that takes no byte has failed too.
#[test]
fn a_failure_replaces_the_error(rt: HostRuntime) -> Result<(), Fail> {
    for (at_once, failing) in [(100, 1), (0, 0)] {
        let (writer, stop) = run_to(rt.alloc(), MEMBERS, at_once, failing)?;
        let taker = writer.inner();
        assert!(rt; matches!(stop, Stop::WriteFailed) && writer.failures() == 1);
        assert!(rt; taker.calls == 1 && taker.offered == 10 && taker.wanted.len() == 10);
    }
    Ok(())
}

// 5,000 bytes go out in two calls: when 4,096 are held, and the rest at the stop.
#[test]
fn many_bytes_go_out_in_two_calls(rt: HostRuntime) -> Result<(), Fail> {
    let output = vec![in rt.alloc(); b'x'; 5_000]?;
    let program = Program {
        source: MANY,
        claims: "pcert 1\n",
        input: "",
        output: &output,
    };
    let (writer, stop) = run_to(rt.alloc(), program, 5_000, 0)?;
    let taker = writer.inner();
    assert!(rt; matches!(stop, Stop::Finished) && writer.failures() == 0);
    assert!(rt; taker.is_right && taker.wanted.is_empty());
    assert!(rt; taker.calls == 2 && taker.offered == 904);
    Ok(())
}
