//! `pint [--cells N] CODE` runs the code that `pcom` wrote.
#![tactic(auto)]

use host_system::{System, words};
use report::pint::pint;
use report::{CommandName, run_program};
use std::process::ExitCode;

fn main(rt: HostRuntime) -> ExitCode {
    let words = words(&rt, CommandName::Pint);
    ExitCode::from(run_program(rt.alloc(), words, pint, &mut System::new(&rt)))
}
