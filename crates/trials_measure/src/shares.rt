//! How many instructions of a run are taken singly, without a prepared step.

use pcode_assembler::assemble;
use preparer::prepare::prepare;
use stack_machine::bytes::Counted;
use stack_machine::{Machine, Stop};
use std::{fs, io};

/// The cells of the machine.
const CELLS: u32 = 1_000_000;

/// Runs a code without input for so many instructions, with its prepared steps, and tells how many were taken singly,
/// if the run goes on as far.
pub(crate) fn shares(rt: &HostRuntime, words: &[String]) -> io::Result<()> {
    let [path, budget] = words else {
        return println!(rt; "no code, or no budget");
    };
    let text = fs::read(rt, path.as_str())?;
    let Ok(code) = assemble(rt.alloc(), &text) else {
        return println!(rt; "refused");
    };
    let prepared = prepare(rt.alloc(), &code)?;
    let mut machine = Machine::new(rt.alloc(), CELLS)?;
    let budget = budget.as_str().parse::<u64>().unwrap_or(0);
    let mut reader = Counted::new(io::empty());
    let mut writer = Counted::new(io::sink());
    let mut singly = 0;
    let stop = machine.run_counted(
        &code,
        &prepared,
        &mut reader,
        &mut writer,
        budget,
        &mut singly,
    );
    match stop {
        Stop::More => println!(rt; "{singly} of {budget}"),
        _ => println!(rt; "stopped before {budget}"),
    }
}
