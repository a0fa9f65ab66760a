ghost use Rattle.std.specs.Prelude.{◌≡◌, ◌≤◌, [], IfOk, string_bytes};
ghost use Rattle.stack_machine.specs.Run.{machine};
ghost use Rattle.test_words.specs.Runs.{IsToldRun, fault_word, word_of};

use pcode_assembler::{Code, Point, Site};
use stack_machine::bytes::Counted;
use stack_machine::{Machine, MachineFault, Stop};
use std::alloc::Global;
use std::test::Fail;
use text_input::InputFault;

/// How a run stops, in a word; none where it finishes. Of the errors that of the first site has a word of its own, and
/// of the faults of the input those at the first point.
pub fn word_of(stop: Stop) -> &'static str
    ensures { result.now ≡ word_of stop }
{
    match stop {
        Stop::Finished => "",
        Stop::Error(Site { id: 0, .. }) => "error",
        Stop::Input {
            point: Point { id: 0, .. },
            fault,
        } => fault_word(fault),
        Stop::More => "more",
        Stop::StoreFull => "full",
        Stop::ReadFailed => "unread",
        Stop::WriteFailed => "failed",
        Stop::Fault(MachineFault::Underflow) => "M1",
        Stop::Fault(MachineFault::OutOfBounds) => "M2",
        Stop::Fault(MachineFault::WrongKind) => "M3",
        Stop::Fault(MachineFault::WrongDivisor) => "M4",
        _ => "another stop",
    }
}

/// A fault of the input, in a word.
fn fault_word(fault: InputFault) -> &'static str
    ensures { result.now ≡ fault_word fault }
{
    match fault {
        InputFault::EndOfInput => "N1",
        InputFault::NotANumber => "N2",
        InputFault::NumberTooLarge => "N3",
        InputFault::OutsideType => "N4",
        InputFault::NotACharacter => "N5",
    }
}

/// What a run of the code without input writes, and behind it how it stops.
pub fn run_told(alloc: Global, code: &Code, cells: u32, budget: u64) -> Result<String, Fail>
    requires { (1 ≤ cells) × (cells ≤ 16777216) }
    ensures { IfOk result (λ told. IsToldRun (string_bytes told) (machine code.now [] cells budget)) }
{
    run_on(alloc, code, &[], cells, budget)
}

/// What a run of the code on this input writes, and behind it how it stops.
pub fn run_on(
    alloc: Global,
    code: &Code,
    input: &[u8],
    cells: u32,
    budget: u64,
) -> Result<String, Fail>
    requires { (1 ≤ cells) × (cells ≤ 16777216) }
    ensures { IfOk result (λ told. IsToldRun (string_bytes told) (machine code.now input.now cells budget)) }
{
    let mut machine = Machine::new(alloc, cells)?;
    let mut reader = Counted::new(input);
    let mut writer = Counted::new(Vec::new(alloc));
    let word = word_of(machine.run(code, &mut reader, &mut writer, budget));
    let mut told = String::from_utf8(writer.into_inner())?;
    told.push_str(word)?;
    Ok(told)
}
