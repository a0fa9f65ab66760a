//! What the tests share: sources that are compiled, run and told as texts.

ghost use Rattle.std.specs.Prelude.{◌≤◌};

use crate::pieces::Text;
use cert_checker::Verdict;
use interpreter::interpret;
use meaning::{Ending, Outcome};
use pcode_assembler::Code;
use report::compile::compile;
use report::fault::Fault;
use report::go;
use report::text::{fault_text, open_lines, stop_text};
use stack_machine::bytes::Counted;
use stack_machine::{Machine, Stop};
use std::alloc::{AllocError, Global};
use std::test::Fail;
use text_input::InputFault;

pub(crate) const CELLS: u32 = 1_000_000;

// What a run of a source shows.
#[derive(Drop)]
pub(crate) struct Shown {
    pub(crate) verdict: Verdict,
    pub(crate) output: Vec<u8>,
    pub(crate) stop: Stop,
}

// What a run of a code writes, and how it stops.
#[derive(Drop)]
pub(crate) struct Ran {
    pub(crate) output: Vec<u8>,
    pub(crate) stop: Stop,
}

// Runs a code on an input. The writer is a vector, so only where memory ran out does the run stop as one that fails.
pub(crate) fn run(
    alloc: Global,
    code: &Code,
    input: &[u8],
    cells: u32,
    budget: u64,
) -> Result<Ran, Fault>
    requires { (1 ≤ cells) × (cells ≤ 16777216) }
{
    let mut machine = Machine::new(alloc, cells)?;
    let mut reader = Counted::new(input);
    let mut writer = Counted::new(Vec::new(alloc));
    let stop = machine.run(code, &mut reader, &mut writer, budget);
    Ok(Ran {
        output: writer.into_inner(),
        stop,
    })
}

// Compiles and runs a source without input. The writer is a vector here too.
pub(crate) fn show(alloc: Global, source: &[u8], cells: u32, budget: u64) -> Result<Shown, Fault>
    requires { (1 ≤ cells) × (cells ≤ 16777216) }
{
    let mut reader = Counted::new(b"".as_slice());
    let mut writer = Counted::new(Vec::new(alloc));
    let (verdict, stop) = go(alloc, source, None, &mut reader, &mut writer, cells, budget)?;
    Ok(Shown {
        verdict,
        output: writer.into_inner(),
        stop,
    })
}

// What the reference interpreter does with a source that compiles, whose run ends.
fn interpreted(alloc: Global, source: &[u8]) -> Result<Outcome, Fault> {
    let compiled = compile(alloc, source, None)?;
    Ok(interpret(alloc, &compiled.tree, b"", u64::MAX)?)
}

// Whether the interpreter writes what a run shows, and ends as it stops.
fn is_meant(outcome: &Outcome, shown: &Shown) -> bool {
    outcome.output.as_slice() == shown.output.as_slice() && is_same_end(shown.stop, outcome.ending)
}

// Whether a machine's stop and a meaning's ending are the same end.
pub(crate) fn is_same_end(stop: Stop, ending: Ending) -> bool {
    match (stop, ending) {
        (Stop::Finished, Ending::Finished) => true,
        (Stop::Error(site), Ending::Error(id)) => site.id == id,
        (
            Stop::Input { point, fault },
            Ending::Input {
                point: id,
                fault: meant,
            },
        ) => point.id == id && is_same_fault(fault, meant),
        _ => false,
    }
}

fn is_same_fault(told: InputFault, meant: InputFault) -> bool {
    matches!(
        (told, meant),
        (InputFault::EndOfInput, InputFault::EndOfInput)
            | (InputFault::NotANumber, InputFault::NotANumber)
            | (InputFault::NumberTooLarge, InputFault::NumberTooLarge)
            | (InputFault::OutsideType, InputFault::OutsideType)
            | (InputFault::NotACharacter, InputFault::NotACharacter)
    )
}

// What a run without a limit to its steps shows. Fails where the interpreter does something else.
pub(crate) fn agreed(alloc: Global, source: &[u8], cells: u32) -> Result<Shown, Fail>
    requires { (1 ≤ cells) × (cells ≤ 16777216) }
{
    let shown = show(alloc, source, cells, u64::MAX)?;
    if is_meant(&interpreted(alloc, source)?, &shown) {
        Ok(shown)
    } else {
        Err(Fail::new("the interpreter does something else"))
    }
}

// A text that a call gave as bytes.
pub(crate) fn text_of(bytes: &[u8]) -> &str {
    str::from_utf8(bytes).unwrap_or("no text")
}

// The line of a stop, a bar and the status.
pub(crate) fn stop_told(alloc: Global, stop: &Stop) -> Result<String, AllocError> {
    let (line, status) = stop_text(alloc, stop);
    format!(in alloc; "{}|{status}", text_of(line.as_slice()))
}

// The lines of the open sites, the output, and the line and the status of the stop, with bars between them.
pub(crate) fn shown_told(alloc: Global, shown: &Shown) -> Result<String, AllocError> {
    let sites = open_lines(alloc, &shown.verdict.open_sites)?;
    let stop = stop_told(alloc, &shown.stop)?;
    format!(in alloc; "{}|{}|{stop}", text_of(&sites), text_of(&shown.output))
}

// What a run on ample cells shows, told.
pub(crate) fn agreed_told(alloc: Global, source: &[u8]) -> Result<String, Fail> {
    Ok(shown_told(alloc, &agreed(alloc, source, CELLS)?)?)
}

// How many statements and expressions a source has, where it compiles.
pub(crate) fn visits(
    alloc: Global,
    source: &[u8],
    certificate: Option<&[u8]>,
) -> Result<u64, Fault> {
    Ok(compile(alloc, source, certificate)?.verdict.visits)
}

// The line of a refusal; an empty text where the source compiles. Fails for want of memory, and where the line has no
// end or the status isn't that of a refusal.
pub(crate) fn refusal(
    alloc: Global,
    source: &[u8],
    certificate: Option<&[u8]>,
) -> Result<String, Fail> {
    match visits(alloc, source, certificate) {
        Ok(_) => Ok(String::new(alloc)),
        Err(Fault::Memory(refused)) => Err(Fault::Memory(refused).into()),
        Err(fault) => refusal_told(alloc, &fault),
    }
}

// The line of a fault, which isn't want of memory.
pub(crate) fn refusal_told(alloc: Global, fault: &Fault) -> Result<String, Fail> {
    let (line, status) = fault_text(alloc, fault);
    let told = text_of(line.as_slice());
    if status == 2 && told.ends_with("\n") {
        Ok(String::from_str(alloc, told)?)
    } else {
        Err(Fail::new("no line of a refusal"))
    }
}

// Source text in parts, each repeated.
pub(crate) fn repeated(alloc: Global, parts: &[(&str, usize)]) -> Result<Vec<u8>, AllocError> {
    let mut text = Text::new(alloc);
    for (part, count) in parts {
        for _ in 0..*count {
            text.put(part);
        }
    }
    text.finish()
}
