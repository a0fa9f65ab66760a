//! What lies outside of the compiler's programs where the system runs them.
#![tactic(auto)]

ghost use Rattle.std.specs.Prelude.{None};

mod whole_file;

use clap::Error;
use command_line::{CommandName, WordsFault, not_utf8, tell};
use outside::Outside;
use pcode_assembler::Code;
use prepared_steps::Prepared;
use report_text::messages::put;
use stack_machine::bytes::Counted;
use stack_machine::{Machine, Stop};
use std::alloc::AllocError;
use std::io::ErrorKind;
use std::{env, fs};

/// The words of a command, the program's name first.
///
/// # Errors
/// `Memory`, or that one isn't UTF-8.
pub fn words(rt: &HostRuntime, name: CommandName) -> Result<Vec<String>, WordsFault> {
    match env::args(rt) {
        Ok(given) => Ok(given.collect::<Vec<String>>(rt.alloc())?),
        Err(error) if error.kind() == ErrorKind::OutOfMemory => Err(AllocError.into()),
        Err(_) => Err(WordsFault::Words(not_utf8(rt.alloc(), name)?)),
    }
}

/// The files and the streams of the system.
#[derive(Clone, Copy)]
pub struct System<'a> {
    rt: &'a HostRuntime,
}

impl<'a> System<'a> {
    /// Those of a runtime.
    pub fn new(rt: &'a HostRuntime) -> System<'a> {
        System { rt }
    }
}

impl Outside for System<'_> {
    // What was done shows in the system alone.
    ghost acts = { λ _. None };

    fn answer(&mut self, told: Error) -> bool {
        tell(self.rt, told)
    }

    fn read_file(&mut self, path: &str) -> Option<Vec<u8>> {
        fs::read(self.rt, path).ok()
    }

    fn write_file(&mut self, path: &str, text: &[u8]) -> bool {
        whole_file::write(self.rt, path, text).is_ok()
    }

    fn tell(&mut self, parts: &[&[u8]]) -> bool {
        parts
            .iter()
            .all(|part| put(part, &mut Counted::new(self.rt.stderr())))
    }

    fn run(
        &mut self,
        machine: &mut Machine,
        code: &Code,
        prepared: &Prepared,
        budget: u64,
    ) -> Stop {
        let mut reader = Counted::new(self.rt.stdin());
        let mut writer = Counted::new(self.rt.stdout());
        machine.run_prepared(code, prepared, &mut reader, &mut writer, budget)
    }
}
