ghost use Rattle.std.specs.Prelude.{◌≡◌, ◌==◌, if◌then◌else◌};
ghost use Rattle.report.specs.Courses.{CourseGoes, HasWritten, ends_with, file_status, run_status, runs, tells_stop};
ghost use Rattle.report.specs.Courses.{unreadable_line, untaken, unwritable_line};
ghost use Rattle.report.specs.Refusals.{given};
ghost use Rattle.report_text.specs.Text.{refusal_line, refusal_of, refusal_status};
ghost use Rattle.stack_machine.specs.Does.{cell_count};
ghost use Rattle.stack_machine.specs.Stands.{Stands};

use crate::ready::Ready;
use crate::text::{fault_text, stop_text};
use command_line::WordsFault;
use outside::Outside;
use pcode_assembler::Code;
use report_text::fault::Fault;
use stack_machine::Stop;
use std::alloc::Global;

/// The status where words aren't taken, and where a file can't be read or written.
const TROUBLE: u8 = 3;

/// Answers words that aren't taken, or that want the help or the version, and gives the status.
pub fn untaken<O: Outside>(alloc: Global, fault: WordsFault, outside: &mut O) -> u8
    ensures { CourseGoes (O.acts outside.old) (O.acts outside.new) result (untaken fault) }
{
    match fault {
        WordsFault::Memory(refused) => refuse(alloc, &Fault::Memory(refused), outside),
        WordsFault::Words(told) => { if outside.answer(told) { TROUBLE } else { 0 } }
    }
}

/// Tells that the file of a path can't be read, and gives the status.
pub fn cannot_read<O: Outside>(path: &str, outside: &mut O) -> u8
    ensures { CourseGoes (O.acts outside.old) (O.acts outside.new) result
        (ends_with (unreadable_line path.now) file_status) }
{
    outside.tell(&["cannot read ".as_bytes(), path.as_bytes(), "\n".as_bytes()]);
    TROUBLE
}

/// Tells that the file of a path can't be written, and gives the status.
pub(crate) fn cannot_write<O: Outside>(path: &str, outside: &mut O) -> u8
    ensures { CourseGoes (O.acts outside.old) (O.acts outside.new) result
        (ends_with (unwritable_line path.now) file_status) }
{
    outside.tell(&["cannot write ".as_bytes(), path.as_bytes(), "\n".as_bytes()]);
    TROUBLE
}

/// Tells why something is refused, and gives the status.
pub fn refuse<O: Outside>(alloc: Global, fault: &Fault, outside: &mut O) -> u8
    ensures { CourseGoes (O.acts outside.old) (O.acts outside.new) result
        (ends_with (refusal_line (refusal_of fault.now)) (refusal_status (refusal_of fault.now))) }
{
    let (line, status) = fault_text(alloc, fault);
    outside.tell(&[line.as_slice()]);
    status
}

/// Writes a text to a file, where one is named.
///
/// # Errors
/// The path, where the file doesn't take all of the text.
pub(crate) fn write_to<'a, O: Outside>(
    path: Option<&'a str>,
    text: &[u8],
    outside: &mut O,
) -> Result<(), &'a str>
    ensures { HasWritten (given path.entry) text.now (O.acts outside.old) (O.acts outside.new) result }
{
    match path {
        Some(path) if !outside.write_file(path, text) => Err(path),
        _ => Ok(()),
    }
}

/// Runs a code by what was made ready for it, and tells how it stopped, where all that was told before was taken. The
/// status is the stop's, but the report's where the run finished.
pub(crate) fn run_code<O: Outside>(
    alloc: Global,
    code: &Code,
    ready: &mut Ready,
    told: bool,
    report: u8,
    outside: &mut O,
) -> u8
    requires { Stands code.now.instructions.items ready.old.steps }
    ensures { CourseGoes (O.acts outside.old) (O.acts outside.new) result
        (runs code.now (cell_count ready.old.machine) told report) }
{
    let stop = outside.run(&mut ready.machine, code, &ready.steps, u64::MAX);
    tell_stop(alloc, &stop, told, report, outside)
}

/// Tells how a run stopped, where all that was told before was taken, and gives the status.
fn tell_stop<O: Outside>(alloc: Global, stop: &Stop, told: bool, report: u8, outside: &mut O) -> u8
    ensures { CourseGoes (O.acts outside.old) (O.acts outside.new) result
        (tells_stop told stop.now (run_status report stop.now)) }
{
    let (line, status) = stop_text(alloc, stop);
    if !told {
        return run_status(report, status);
    }
    outside.tell(&[line.as_slice()]);
    run_status(report, status)
}

/// The status of a run: the stop's, but the report's where the run finished.
fn run_status(report: u8, stop: u8) -> u8
    ensures { result ≡ (if stop == 0 then report else stop) }
{
    if stop == 0 { report } else { stop }
}
