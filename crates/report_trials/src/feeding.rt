//! Runs over readers that cut their bytes, and over readers that fail.

use crate::shown::{stop_told, text_of};
use report::fault::Fault;
use report::go;
use stack_machine::bytes::Counted;
use std::alloc::Global;
use std::io;
use std::io::ErrorKind;
use std::test::Fail;
use test_words::rows::all_hold;

// A source and its certificate.
type Program = (&'static str, &'static str);

// One that copies its input line by line.
const COPY: Program = (
    "program p(input, output); var c: char; begin while not eof do begin if eoln then begin readln; writeln end
    else begin read(c); write(c) end end end.",
    "pcert 1\nproc 0\nloop 0\nchange v0\n",
);

// One that reads so many numbers as the first one says, and writes them.
const NUMBERS: Program = (
    "program p(input, output); var n: 1..100; i: integer; a: array [1..100] of integer;
    begin read(n); for i := 1 to n do read(a[i]); for i := 1 to n do write(a[i]:1, '.') end.",
    "pcert 1\nproc 0\nloop 0\nchange v2\nfact defined v2 1 v1-1\n",
);

// Gives its bytes in pieces of a length, and fails at the call of a number, from 1; at none where that is 0.
#[derive(Drop)]
struct Cut<'a> {
    rest: &'a [u8],
    length: usize,
    failing: u32,
    calls: u32,
}

impl io::Read for Cut<'_> {
    fn read(&mut self, piece: &mut [u8]) -> io::Result<usize> {
        self.calls = self.calls.saturating_add(1);
        if self.calls == self.failing {
            return Err(io::Error::from(ErrorKind::Other));
        }
        let count = self.length.min(self.rest.len()).min(piece.len());
        let (given, rest) = self.rest.split_at(count);
        piece[..count].copy_from_slice(given);
        self.rest = rest;
        Ok(count)
    }
}

// What a program writes, and behind that the line and the status of its stop; and how often the reader was called.
fn run_over(alloc: Global, program: Program, reader: Cut) -> Result<(String, u32), Fault> {
    let (source, claims) = program;
    let mut reader = Counted::new(reader);
    let mut writer = Counted::new(Vec::new(alloc));
    let (_, stop) = go(
        alloc,
        source.as_bytes(),
        Some(claims.as_bytes()),
        &mut reader,
        &mut writer,
        4_000,
        u64::MAX,
    )?;
    let told = stop_told(alloc, &stop)?;
    let shown = format!(in alloc; "{}|{told}", text_of(&writer.into_inner()))?;
    Ok((shown, reader.inner().calls))
}

// A program, its input, the length of the pieces and the call at which the reader fails, 0 for none.
type Row = (Program, &'static str, usize, u32);

fn row_told(alloc: Global, row: &Row) -> Result<String, Fault> {
    let (program, input, length, failing) = *row;
    let reader = Cut {
        rest: input.as_bytes(),
        length,
        failing,
        calls: 0,
    };
    let (told, _) = run_over(alloc, program, reader)?;
    Ok(told)
}

// Programs, their inputs, and what they write and how they stop.
static INPUTS: [(Program, &str, &str); 10] = [
    (COPY, "", "||0"),
    (COPY, "ab\n\nc", "ab\n\nc\n||0"),
    (COPY, "ab\n\nc\n", "ab\n\nc\n||0"),
    (COPY, "abc\u{e9}d", "abc|2:21: input: not a character\n|5"),
    (NUMBERS, "2 -12345 +67890", "-12345.67890.||0"),
    (NUMBERS, "3\n\n 0000000000001 2\n\n\n3x", "1.2.3.||0"),
    (NUMBERS, "3 1 2 ", "|2:44: input: end of input\n|5"),
    (NUMBERS, "3 1 2 -", "|2:44: input: not a number\n|5"),
    (
        NUMBERS,
        "1 2147483648",
        "|2:44: input: number too large\n|5",
    ),
    (NUMBERS, "101", "|2:16: input: value outside the type\n|5"),
];

#[test]
fn pieces_of_every_length_are_one_input(rt: HostRuntime) -> Result<(), Fail> {
    for (program, input, wanted) in &INPUTS {
        for length in 1..11usize {
            all_hold(
                rt.alloc(),
                &[((*program, *input, length, 0), *wanted)],
                row_told,
            )?;
        }
    }
    Ok(())
}

// The call at which a reader fails, and what was written before. The copying program reads single bytes of ab, two line
// ends and c: all that was given is used. The other one reads two bytes a call, and needs the byte behind each number;
// nothing asks for a fifth call.
static FAILING: [(Row, &str); 13] = [
    ((COPY, "ab\n\nc", 1, 1), "|read failed\n|3"),
    ((COPY, "ab\n\nc", 1, 2), "a|read failed\n|3"),
    ((COPY, "ab\n\nc", 1, 3), "ab|read failed\n|3"),
    ((COPY, "ab\n\nc", 1, 4), "ab\n|read failed\n|3"),
    ((COPY, "ab\n\nc", 1, 5), "ab\n\n|read failed\n|3"),
    ((COPY, "ab\n\nc", 1, 6), "ab\n\nc|read failed\n|3"),
    ((COPY, "ab\n\nc", 1, 0), "ab\n\nc\n||0"),
    ((NUMBERS, "2 10 2 ", 2, 1), "|read failed\n|3"),
    ((NUMBERS, "2 10 2 ", 2, 2), "|read failed\n|3"),
    ((NUMBERS, "2 10 2 ", 2, 3), "|read failed\n|3"),
    ((NUMBERS, "2 10 2 ", 2, 4), "|read failed\n|3"),
    ((NUMBERS, "2 10 2 ", 2, 5), "10.2.||0"),
    ((NUMBERS, "2 10 2 ", 2, 0), "10.2.||0"),
];

#[test]
fn what_was_read_before_a_failure_is_used(rt: HostRuntime) -> Result<(), Fail> {
    all_hold(rt.alloc(), &FAILING, row_told)
}

// A reader that gives all that there is room for: 8,000 bytes come in two calls, and the third says that none is left.
#[test]
fn the_input_is_asked_for_in_pieces(rt: HostRuntime) -> Result<(), Fail> {
    let alloc = rt.alloc();
    let input = vec![in alloc; b'a'; 8_000]?;
    let reader = Cut {
        rest: &input,
        length: 10_000,
        failing: 0,
        calls: 0,
    };
    let (_, calls) = run_over(alloc, COPY, reader)?;
    assert!(rt; calls == 3);
    Ok(())
}
