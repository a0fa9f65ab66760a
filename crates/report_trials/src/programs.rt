use crate::shown::text_of;
use crate::stage::Stage;
use report::compile::compile;
use report::pcom::pcom;
use report::{cannot_read, refuse, run_program};
use std::alloc::Global;
use std::test::Fail;
use test_words::rows::all_hold;

// What the program told of a source.
#[derive(Drop)]
pub(crate) struct Told {
    pub(crate) output: Vec<u8>,
    pub(crate) errors: Vec<u8>,
    pub(crate) status: u8,
}

// Runs the program with --go on a source without input, with standard output and standard error behind what these hold.
pub(crate) fn run<'x>(
    alloc: Global,
    source: &'x [u8],
    certificate: &'x [u8],
    output: Vec<u8>,
    errors: Vec<u8>,
) -> Told {
    let files = [("p.pas", source), ("p.cert", certificate)];
    let mut stage = Stage::new(alloc, &files, output, errors);
    let words = ["pcom", "--cert", "p.cert", "--go", "p.pas"];
    let status = pcom(alloc, &words, &mut stage);
    Told {
        output: stage.output,
        errors: stage.errors,
        status,
    }
}

// A program whose open site is closed by the certificate that is found, one in which a sum overflows, and one that is
// refused.
const COUNTS: &str =
    "program p(output); var i: integer; begin i := 1; while i <> 9 do i := i + 1; write(i:1) end.";

const ERRS: &str = "program p; var x: integer; begin x := 2147483647; x := x + 1 end.";

const REFUSED: &str = "program p; begin i := 1 end.";

// The words, and what is done, written to files, put out and told, and the status.
static ACTS: [(&[&str], &str); 9] = [
    (&["pcom", "--help"], "answer;||||0"),
    (&["pcom"], "answer;||||3"),
    (
        &["pcom", "no.pas"],
        "read no.pas;tell;|||cannot read no.pas\n|3",
    ),
    (
        &["pcom", "--cert", "no.cert", "p.pas"],
        "read p.pas;read no.cert;tell;|||cannot read no.cert\n|3",
    ),
    (
        &["pcom", "--write-cert", "a.cert", "--go", "refused.pas"],
        "read refused.pas;tell;|||1:18: refused S3\n|2",
    ),
    (
        &["pcom", "--write-cert", "full.cert", "--go", "p.pas"],
        "read p.pas;write full.cert;tell;|||cannot write full.cert\n|3",
    ),
    (
        &["pcom", "--write-cert", "a.cert", "--go", "p.pas"],
        "read p.pas;write a.cert;tell;run;tell;|pcert 3\nproc 0\nloop 0\nchange v0\nfact range v0 1 9\n|9||0",
    ),
    (
        &["pcom", "errs.pas"],
        "read errs.pas;tell;|||1:58: possible error: overflow\n|1",
    ),
    (
        &["pcom", "--cert", "empty.cert", "--go", "errs.pas"],
        "read errs.pas;read empty.cert;tell;run;tell;|||1:58: possible error: overflow\n1:58: error: overflow\n|4",
    ),
];

// What is done for the words. It fails where memory was refused to the program, or to what lies outside of it; there is
// room for the output.
fn acts_told(alloc: Global, words: &&[&str]) -> Result<String, Fail> {
    let files = [
        ("p.pas", COUNTS.as_bytes()),
        ("errs.pas", ERRS.as_bytes()),
        ("refused.pas", REFUSED.as_bytes()),
        ("empty.cert", b"pcert 1\n".as_slice()),
    ];
    let output = Vec::with_capacity(alloc, 64)?;
    let mut stage = Stage::new(alloc, &files, output, Vec::new(alloc));
    stage.full = "full.cert";
    let status = pcom(alloc, words, &mut stage);
    if stage.is_refused || stage.errors.as_slice() == b"no memory\n".as_slice() {
        return Err(Fail::new("no memory"));
    }
    let (acts, written) = (text_of(&stage.acts), text_of(&stage.written));
    let (output, errors) = (text_of(&stage.output), text_of(&stage.errors));
    Ok(format!(in alloc; "{acts}|{written}|{output}|{errors}|{status}")?)
}

#[test]
fn acts_come_in_their_order(rt: HostRuntime) -> Result<(), Fail> {
    all_hold(rt.alloc(), &ACTS, acts_told)
}

#[test]
fn programs_end_with_a_line(rt: HostRuntime) -> Result<(), Fail> {
    let alloc = rt.alloc();
    let (name, path) = (
        String::from_str(alloc, "pcom")?,
        String::from_str(alloc, "no.pas")?,
    );
    let words = vec![in alloc; name, path]?;
    let mut stage = Stage::new(alloc, &[], Vec::new(alloc), Vec::new(alloc));
    let Err(fault) = compile(alloc, b"begin", None) else {
        return Err(Fail::new("it is no program"));
    };
    let statuses = [
        run_program(alloc, Ok(words), pcom, &mut stage),
        cannot_read("no.cert", &mut stage),
        refuse(alloc, &fault, &mut stage),
    ];
    let (first, last) = (b"no memory\n", b"\nno memory\n");
    if stage.is_refused || stage.errors.starts_with(first) || stage.errors.ends_with(last) {
        return Err(Fail::new("no memory"));
    }
    let told = "cannot read no.pas\ncannot read no.cert\n1:1: refused P1\n";
    assert!(rt; stage.errors.as_slice() == told.as_bytes() && statuses == [3, 3, 2]);
    Ok(())
}
