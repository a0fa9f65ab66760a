//! `pcom [--cert FILE] [--write-cert FILE] [--keep-checks] [--go] SOURCE [CODE]` compiles a Pascal program, names each
//! place at which it can fail, and runs it.
#![tactic(auto)]

use host_system::{System, words};
use report::pcom::pcom;
use report::{CommandName, run_program};
use std::process::ExitCode;

fn main(rt: HostRuntime) -> ExitCode {
    let words = words(&rt, CommandName::Pcom);
    ExitCode::from(run_program(rt.alloc(), words, pcom, &mut System::new(&rt)))
}
