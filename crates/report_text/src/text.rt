ghost use Rattle.std.specs.Prelude.{◌≡◌, ℕ, ◌+◌, ◌*◌, ◌<◌, ◌≤◌, ◌^◌, [], ◌∷◌, ◌++◌, length, decimal, codes, IfOk, IsOk};
ghost use Rattle.std.specs.List.{flat_map};
ghost use Rattle.report_text.specs.declared.text.TheConstants.{LINE_SIZE};
ghost use Rattle.report_text.specs.Text.{name_size, number_size, place_text, open_line, refusal_of, refusal_line};
ghost use Rattle.report_text.specs.Text.{refusal_status, stop_line, stop_status, error_name, input_name, machine_text};
ghost use Rattle.report_text.specs.Text.{code_text, line_refusal};
ghost use Rattle.report_text.specs.Text.{at_or_memory, certificate_refusal};

use crate::fault::Fault;
use certificate::ReadFault;
use checker_expressions::CheckFault;
use code_generator::fault::GenFault;
use itoa::Buffer;
use pcode_assembler::AsmFault;
use place::Place;
use smallvec::SmallVec;
use stack_machine::{MachineFault, Stop};
use std::alloc::{AllocError, Global};
use text_input::InputFault;
use typed_tree::{Site, SiteKind};

/// How many bytes a line takes at most.
pub const LINE_SIZE: usize = 96;

/// A line with its line end, kept in place: none that a program prints is longer.
pub type Line = SmallVec<u8, LINE_SIZE>;

/// The lines of open sites, one for each, in order: `LINE:COLUMN: possible error: NAME`.
pub fn open_lines(alloc: Global, open_sites: &[Site]) -> Result<Vec<u8>, AllocError>
    ensures lines { IfOk result (λ text. text.items ≡ flat_map open_line open_sites.now) }
    // Where nothing is open nothing grows.
    ensures nothing { open_sites.now ≡ [] → IsOk result }
{
    let mut text = Vec::new(alloc);
    for site in open_sites {
        text.extend_from_slice(open_site(alloc, *site).as_slice())?;
    }
    Ok(text)
}

/// The line of a fault, and the status that a program ends with.
pub fn fault_text(alloc: Global, fault: &Fault) -> (Line, u8)
    ensures line { result.0.items ≡ refusal_line (refusal_of fault.now) }
    ensures status { result.1 ≡ refusal_status (refusal_of fault.now) }
{
    let empty = Line::new(alloc);
    match refusal_told(fault) {
        Refusal::Memory => (sentence(empty, "no memory", ""), 3),
        Refusal::Whole(code) => (refused(empty, "refused ", code), 2),
        Refusal::Claims(code) => (refused(empty, "certificate refused ", code), 2),
        Refusal::At { place, code } => {
            let start = placed(alloc, place.line, place.column);
            (refused(start, ": refused ", code), 2)
        }
        Refusal::Certificate { line, code } => (line_refused(alloc, "certificate:", line, code), 2),
        Refusal::Code { line, code } => (line_refused(alloc, "code:", line, code), 2),
        Refusal::Claim { place, code } => {
            let start = placed(alloc, place.line, place.column);
            (refused(start, ": certificate refused ", code), 2)
        }
    }
}

/// The line of a stop, and the status that a program ends with; no line for a run that finished.
pub fn stop_text(alloc: Global, stop: &Stop) -> (Line, u8)
    ensures line { result.0.items ≡ stop_line stop.now }
    ensures status { result.1 ≡ stop_status stop.now }
{
    let empty = Line::new(alloc);
    match stop {
        Stop::Finished => (empty, 0),
        Stop::Error(site) => {
            let start = placed(alloc, site.line, site.column);
            (sentence(start, ": error: ", error_text(site.kind)), 4)
        }
        Stop::Input { point, fault } => {
            let start = placed(alloc, point.line, point.column);
            (sentence(start, ": input: ", input_text(*fault)), 5)
        }
        Stop::More => (sentence(empty, "budget used up", ""), 3),
        Stop::StoreFull => (sentence(empty, "store full", ""), 6),
        Stop::Fault(fault) => (sentence(empty, "machine fault ", fault_name(*fault)), 7),
        Stop::ReadFailed => (sentence(empty, "read failed", ""), 3),
        Stop::WriteFailed => (sentence(empty, "write failed", ""), 3),
    }
}

/// The letter and the number of a rule that a source breaks.
#[derive(Clone, Copy)]
pub struct RuleCode {
    pub letter: u8,
    pub number: u8,
}

/// What a fault says: where, and which rule.
#[derive(Clone, Copy)]
pub enum Refusal {
    Memory,
    /// At a place of the source.
    At { place: Place, code: RuleCode },
    /// At a line of the certificate.
    Certificate { line: u64, code: RuleCode },
    /// Of what the certificate claims, at a place of the source.
    Claim { place: Place, code: RuleCode },
    /// Of what the certificate claims, as a whole.
    Claims(RuleCode),
    /// Of the program as a whole.
    Whole(RuleCode),
    /// At a line of the text of a code.
    Code { line: u64, code: RuleCode },
}

/// What a fault says.
pub fn refusal_told(fault: &Fault) -> Refusal
    ensures { result ≡ refusal_of fault.now }
{
    match *fault {
        Fault::Memory(_)
        | Fault::Check(CheckFault::Memory(_))
        | Fault::Generate(GenFault::Memory(_))
        | Fault::Code(AsmFault::Memory(_)) => Refusal::Memory,
        Fault::Lex(fault) => at_or_memory(fault.place(), b'L', fault.number()),
        Fault::Parse(fault) => at_or_memory(fault.place(), b'P', fault.number()),
        Fault::Typing(fault) => {
            let (letter, number) = fault.code();
            at_or_memory(fault.place(), letter, number)
        }
        Fault::Certificate(fault) => certificate_refusal(fault),
        Fault::Check(CheckFault::TooLarge) => Refusal::Whole(code_of(b'K', 10)),
        Fault::Check(CheckFault::Foreign) => Refusal::Claims(code_of(b'C', 1)),
        Fault::Check(CheckFault::Broken { rule, place }) => {
            let code = code_of(b'C', rule.number());
            Refusal::Claim { place, code }
        }
        Fault::Generate(GenFault::TooLarge) => Refusal::Whole(code_of(b'G', 1)),
        Fault::Code(AsmFault::Refused { rule, line }) => {
            let code = code_of(b'A', rule.number());
            Refusal::Code { line, code }
        }
    }
}

fn code_of(letter: u8, number: u8) -> RuleCode
    ensures { result ≡ record { letter = letter; number = number } }
{
    RuleCode { letter, number }
}

// A rule that is broken at a place; want of memory, where there is none.
fn at_or_memory(place: Option<Place>, letter: u8, number: u8) -> Refusal
    ensures { result ≡ at_or_memory place letter number }
{
    let code = code_of(letter, number);
    match place {
        None => Refusal::Memory,
        Some(place) => Refusal::At { place, code },
    }
}

// A rule that is broken at a line of a certificate; want of memory, where there is none.
fn certificate_refusal(fault: ReadFault) -> Refusal
    ensures { result ≡ certificate_refusal fault }
{
    let code = code_of(b'F', fault.number());
    match fault.line() {
        None => Refusal::Memory,
        Some(line) => Refusal::Certificate { line, code },
    }
}

fn error_text(kind: u8) -> &'static str
    ensures name { result.now ≡ error_name kind }
    ensures short { length result.now ≤ name_size }
{
    match SiteKind::with_number(kind) {
        Some(kind) => kind.name(),
        None => "unknown",
    }
}

fn input_text(fault: InputFault) -> &'static str
    ensures name { result.now ≡ input_name fault }
    ensures short { length result.now ≤ name_size }
{
    match fault {
        InputFault::EndOfInput => "end of input",
        InputFault::NotANumber => "not a number",
        InputFault::NumberTooLarge => "number too large",
        InputFault::OutsideType => "value outside the type",
        InputFault::NotACharacter => "not a character",
    }
}

fn fault_name(fault: MachineFault) -> &'static str
    ensures name { result.now ≡ machine_text fault }
    ensures short { length result.now ≤ name_size }
{
    match fault {
        MachineFault::Underflow => "M1",
        MachineFault::OutOfBounds => "M2",
        MachineFault::WrongKind => "M3",
        MachineFault::WrongDivisor => "M4",
    }
}

fn open_site(alloc: Global, site: Site) -> Line
    ensures { result.items ≡ open_line site }
{
    let start = placed(alloc, site.place.line, site.place.column);
    sentence(start, ": possible error: ", site.kind.name())
}

// `LINE:COLUMN`
fn placed(alloc: Global, line: u32, column: u32) -> Line
    ensures text { result.items ≡ place_text line column }
    ensures capacity { result.capacity ≡ LINE_SIZE }
    ensures short { length result.items ≤ 2 * number_size + 1 }
{
    let start = numbered(Line::new(alloc), u64::from(line));
    numbered(append(start, ":"), u64::from(column))
}

fn numbered(line: Line, number: u64) -> Line
    requires capacity { line.capacity ≡ LINE_SIZE }
    requires short { length line.items + number_size ≤ LINE_SIZE }
    ensures text { result.items ≡ line.items ++ decimal number }
    ensures capacity { result.capacity ≡ LINE_SIZE }
    ensures short { length result.items ≤ length line.items + number_size }
{
    let mut buffer = Buffer::new();
    append(line, buffer.format(number))
}

// Of which text, its line, the code and the line end.
fn line_refused(alloc: Global, text: &str, number: u64, code: RuleCode) -> Line
    requires { length text.now ≤ name_size }
    ensures { result.items ≡ line_refusal text.now number code }
{
    let start = numbered(append(Line::new(alloc), text), number);
    refused(start, ": refused ", code)
}

// The words, a name and the line end.
fn sentence(line: Line, words: &str, name: &str) -> Line
    requires capacity { line.capacity ≡ LINE_SIZE }
    requires short { length line.items + length words.now + length name.now < LINE_SIZE }
    ensures { result.items ≡ line.items ++ words.now ++ name.now ++ 10 ∷ [] }
{
    append(append(append(line, words), name), "\n")
}

// The words, the code and the line end.
fn refused(line: Line, words: &str, code: RuleCode) -> Line
    requires capacity { line.capacity ≡ LINE_SIZE }
    requires short { length line.items + length words.now + number_size + 2 ≤ LINE_SIZE }
    ensures { result.items ≡ line.items ++ words.now ++ code_text code ++ 10 ∷ [] }
{
    let mut line = append(line, words);
    line.push_reserved(code.letter);
    append(numbered(line, u64::from(code.number)), "\n")
}

fn append(mut line: Line, text: &str) -> Line
    requires capacity { line.capacity ≡ LINE_SIZE }
    requires short { length line.items + length text.now ≤ LINE_SIZE }
    ensures text { result.items ≡ line.items ++ text.now }
    ensures capacity { result.capacity ≡ LINE_SIZE }
    ensures short { length result.items ≡ length line.items + length text.now }
{
    let _fits = line.extend_from_slice(text.as_bytes());
    line
}
