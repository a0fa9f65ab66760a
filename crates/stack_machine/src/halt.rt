ghost use Rattle.std.specs.Prelude.{◌≡◌};
ghost use Rattle.stack_machine.specs.declared.halt.Halt.TheVariants.{Fault};
ghost use Rattle.stack_machine.specs.Halts.{stop_at, unread};
ghost use Rattle.stack_machine.specs.Machine.{tables_of};

use crate::{MachineFault, Stop};
use pcode_assembler::Code;
use run_ports::fault::ReadStop;
use text_input::InputFault;

/// Why an instruction stops a run: a `Stop` in 8 bytes, which has the number of a site or of a point in place of it. So
/// no `Stop` is made while a run goes on.
#[derive(Clone, Copy)]
pub enum Halt {
    Finished,
    /// The number of a site: its place in the code's table.
    Error(u32),
    /// The number of a point, and what was wrong with the input there.
    Input(u32, InputFault),
    StoreFull,
    Fault(MachineFault),
    ReadFailed,
    WriteFailed,
}

impl Halt {
    /// What stops an instruction that reads at this point.
    pub fn unread(point: u32, stop: ReadStop) -> Halt
        ensures { result ≡ unread point stop }
    {
        match stop {
            ReadStop::Input(fault) => Halt::Input(point, fault),
            ReadStop::ReadFailed => Halt::ReadFailed,
            ReadStop::WriteFailed => Halt::WriteFailed,
        }
    }

    /// The stop of a run of this code. A site or a point that isn't in its table is a fault.
    pub fn stop(self, code: &Code) -> Stop
        ensures { result ≡ stop_at (tables_of code.now) self }
    {
        match self {
            Halt::Finished => Stop::Finished,
            Halt::Error(site) => match code.sites.get(site as usize) {
                Some(site) => Stop::Error(*site),
                None => Stop::Fault(MachineFault::OutOfBounds),
            },
            Halt::Input(point, fault) => match code.points.get(point as usize) {
                Some(point) => Stop::Input {
                    point: *point,
                    fault,
                },
                None => Stop::Fault(MachineFault::OutOfBounds),
            },
            Halt::StoreFull => Stop::StoreFull,
            Halt::Fault(fault) => Stop::Fault(fault),
            Halt::ReadFailed => Stop::ReadFailed,
            Halt::WriteFailed => Stop::WriteFailed,
        }
    }
}

impl From<MachineFault> for Halt {
    ghost from_gives = { λ fault halt. halt ≡ Fault fault };

    fn from(fault: MachineFault) -> Halt {
        Halt::Fault(fault)
    }
}
