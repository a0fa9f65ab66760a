use crate::shown::{refusal_told, repeated, stop_told, visits};
use certificate::ReadFault;
use pcode_assembler::{Point, Site};
use report::fault::Fault;
use report::text::fault_text;
use stack_machine::{MachineFault, Stop};
use std::alloc::Global;
use std::test::Fail;
use test_words::rows::all_hold;
use text_input::InputFault;

// Faults in certificates too long to stand here, and the line of their refusal. Line 4294967296 takes 33 bits.
static LATE_LINES: [(Fault, &str); 3] = [
    (
        Fault::Certificate(ReadFault::NotInGrammar {
            line: 4_294_967_295,
        }),
        "certificate:4294967295: refused F2\n",
    ),
    (
        Fault::Certificate(ReadFault::NotInGrammar {
            line: 4_294_967_296,
        }),
        "certificate:4294967296: refused F2\n",
    ),
    (
        Fault::Certificate(ReadFault::Unended { line: u64::MAX }),
        "certificate:18446744073709551615: refused F5\n",
    ),
];

#[test]
fn late_lines_are_numbered(rt: HostRuntime) -> Result<(), Fail> {
    all_hold(rt.alloc(), &LATE_LINES, refusal_told)
}

// Sources, and the sentences of their faults.
static SENTENCES: [(&str, &str); 16] = [
    ("?", "1:1: a byte that begins no token"),
    ("{", "1:1: a comment that doesn't close"),
    ("'", "1:1: a string that doesn't close in its line"),
    ("''", "1:1: a string without an element"),
    ("2147483648", "1:1: a number above 2147483647"),
    ("1a", "1:1: a number that touches a letter"),
    (
        "'\t'",
        "1:2: a byte in a string that is no printable character",
    ),
    ("", "1:1: no program"),
    ("nil", "1:1: a form that this language leaves out"),
    (
        "program p; var a, a: integer; begin end.",
        "1:19: declared twice in one block",
    ),
    (
        "program p; var a: t; t: integer; begin end.",
        "1:19: used before its declaration",
    ),
    ("program p; begin reed end.", "1:18: not declared"),
    (
        "program p; var a: integer; begin a := integer end.",
        "1:39: types that don't fit",
    ),
    ("program p; begin integer := 1 end.", "1:18: not a variable"),
    (
        "program p; var a: integer; begin a := writeln end.",
        "1:39: wrong parameters",
    ),
    (
        "program p(inputs); begin end.",
        "1:11: input or output is no program parameter",
    ),
];

fn source_sentence(alloc: Global, source: &&str) -> Result<String, Fault> {
    sentence_of(alloc, visits(alloc, source.as_bytes(), None))
}

// The same of certificates of the least program.
static CERTIFICATE_SENTENCES: [(&str, &str); 3] = [
    ("pcert 4\n", "certificate:1: no certificate"),
    (
        "pcert 1\nproc 0\n",
        "certificate:2: a line out of its place",
    ),
    ("pcert 1", "certificate:1: a line without its end"),
];

fn certificate_sentence(alloc: Global, certificate: &&str) -> Result<String, Fault> {
    let source = b"program p; begin end.";
    sentence_of(alloc, visits(alloc, source, Some(certificate.as_bytes())))
}

fn sentence_of(alloc: Global, visits: Result<u64, Fault>) -> Result<String, Fault> {
    match visits {
        Err(Fault::Memory(refused)) => Err(Fault::Memory(refused)),
        Err(fault) => Ok(format!(in alloc; "{fault}")?),
        Ok(_) => Ok(String::new(alloc)),
    }
}

#[test]
fn faults_have_their_sentences(rt: HostRuntime) -> Result<(), Fail> {
    all_hold(rt.alloc(), &SENTENCES, source_sentence)?;
    all_hold(rt.alloc(), &CERTIFICATE_SENTENCES, certificate_sentence)
}

#[test]
fn deep_nesting_has_its_sentence(rt: HostRuntime) -> Result<(), Fail> {
    let source = repeated(rt.alloc(), &[("program p; begin ", 1), ("begin ", 127)])?;
    let told = sentence_of(rt.alloc(), visits(rt.alloc(), &source, None))?;
    assert_eq!(rt; told.as_str(), "1:779: nested deeper than 128");
    Ok(())
}

const SET_MEMBER: Site = Site {
    id: 0,
    line: 1,
    column: 58,
    kind: 13,
};

const UNKNOWN: Site = Site {
    id: 0,
    line: 1,
    column: 58,
    kind: 14,
};

const POINT: Point = Point {
    id: 0,
    line: 1,
    column: 95,
};

// Stops that no source of today comes to, with their lines and their statuses.
static STOPS: [(Stop, &str); 13] = [
    (Stop::Error(SET_MEMBER), "1:58: error: set member\n|4"),
    (Stop::Error(UNKNOWN), "1:58: error: unknown\n|4"),
    (
        Stop::Input {
            point: POINT,
            fault: InputFault::EndOfInput,
        },
        "1:95: input: end of input\n|5",
    ),
    (
        Stop::Input {
            point: POINT,
            fault: InputFault::NotANumber,
        },
        "1:95: input: not a number\n|5",
    ),
    (
        Stop::Input {
            point: POINT,
            fault: InputFault::NumberTooLarge,
        },
        "1:95: input: number too large\n|5",
    ),
    (
        Stop::Input {
            point: POINT,
            fault: InputFault::OutsideType,
        },
        "1:95: input: value outside the type\n|5",
    ),
    (
        Stop::Input {
            point: POINT,
            fault: InputFault::NotACharacter,
        },
        "1:95: input: not a character\n|5",
    ),
    (Stop::More, "budget used up\n|3"),
    (Stop::Fault(MachineFault::Underflow), "machine fault M1\n|7"),
    (
        Stop::Fault(MachineFault::OutOfBounds),
        "machine fault M2\n|7",
    ),
    (Stop::Fault(MachineFault::WrongKind), "machine fault M3\n|7"),
    (
        Stop::Fault(MachineFault::WrongDivisor),
        "machine fault M4\n|7",
    ),
    (Stop::ReadFailed, "read failed\n|3"),
];

#[test]
fn every_stop_has_its_line(rt: HostRuntime) -> Result<(), Fail> {
    all_hold(rt.alloc(), &STOPS, stop_told)
}

#[test]
fn want_of_memory_has_its_line(rt: HostRuntime) -> Result<(), Fail> {
    // More than there is.
    match Vec::<u8>::with_capacity(rt.alloc(), usize::MAX) {
        Ok(_) => Err(Fail::new("all memory is there")),
        Err(refused) => {
            let (told, status) = fault_text(rt.alloc(), &refused.into());
            assert!(rt; told.as_slice() == b"no memory\n".as_slice() && status == 3);
            Ok(())
        }
    }
}
