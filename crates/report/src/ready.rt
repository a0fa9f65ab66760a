ghost use Rattle.std.specs.Prelude.{◌≤◌, IfOk};
ghost use Rattle.report.specs.Ready.{IsReady};

use pcode_assembler::Code;
use prepared_steps::Prepared as Steps;
use preparer::prepare::prepare;
use stack_machine::Machine;
use std::alloc::{AllocError, Global};

/// All that takes memory for a run of a code: a machine, and the steps that are prepared for it.
#[derive(Drop)]
pub(crate) struct Ready {
    pub(crate) machine: Machine,
    pub(crate) steps: Steps,
}

impl Ready {
    /// Makes both, the machine, which has so many cells, last: nothing behind it takes memory but the files that are
    /// written.
    pub(crate) fn for_code(alloc: Global, code: &Code, cells: u32) -> Result<Ready, AllocError>
        requires { (1 ≤ cells) × (cells ≤ 16777216) }
        ensures { IfOk result (IsReady code.now cells) }
    {
        let steps = prepare(alloc, code)?;
        let machine = Machine::new(alloc, cells)?;
        Ok(Ready { machine, steps })
    }
}
