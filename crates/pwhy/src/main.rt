//! `pwhy [--cert FILE] SOURCE` tells why a Pascal program can fail at each place that `pcom` names.
#![tactic(auto)]

use host_system::{System, words};
use report::{CommandName, run_program};
use std::process::ExitCode;
use why::pwhy;

fn main(rt: HostRuntime) -> ExitCode {
    let words = words(&rt, CommandName::Pcom);
    ExitCode::from(run_program(rt.alloc(), words, pwhy, &mut System::new(&rt)))
}
