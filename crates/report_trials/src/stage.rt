//! What lies outside of the program in the tests: files by their paths, and a list of what was done.

ghost use Rattle.std.specs.Prelude.{None};

use clap::Error;
use outside::Outside;
use pcode_assembler::Code;
use prepared_steps::Prepared;
use stack_machine::bytes::Counted;
use stack_machine::{Machine, Stop};
use std::alloc::Global;
use std::mem;

// A path, and what its file has.
pub(crate) type File<'a> = (&'a str, &'a [u8]);

// Files that can be read, and what was done.
#[derive(Drop)]
pub(crate) struct Stage<'a> {
    pub(crate) alloc: Global,
    pub(crate) files: &'a [File<'a>],
    // The path whose file takes nothing.
    pub(crate) full: &'a str,
    // A word for each act.
    pub(crate) acts: Vec<u8>,
    // What was written to files.
    pub(crate) written: Vec<u8>,
    pub(crate) output: Vec<u8>,
    pub(crate) errors: Vec<u8>,
    // Whether memory was refused to what lies here.
    pub(crate) is_refused: bool,
}

impl<'a> Stage<'a> {
    // Where these files can be read. Behind what they hold come the output and the messages.
    pub(crate) fn new(
        alloc: Global,
        files: &'a [File<'a>],
        output: Vec<u8>,
        errors: Vec<u8>,
    ) -> Stage<'a> {
        Stage {
            alloc,
            files,
            full: "",
            acts: Vec::new(alloc),
            written: Vec::new(alloc),
            output,
            errors,
            is_refused: false,
        }
    }

    // An act, with the path of its file. None is noted where there is no memory.
    fn note(&mut self, act: &str, path: &str) {
        for part in [act, path, ";"] {
            if self.acts.extend_from_slice(part.as_bytes()).is_err() {
                self.is_refused = true;
            }
        }
    }
}

impl Outside for Stage<'_> {
    ghost acts = { λ _. None };

    fn answer(&mut self, told: Error) -> bool {
        self.note("answer", "");
        told.use_stderr()
    }

    fn read_file(&mut self, path: &str) -> Option<Vec<u8>> {
        self.note("read ", path);
        let (_, bytes) = self.files.iter().find(|(name, _)| *name == path)?;
        let read = bytes.to_vec(self.alloc).ok();
        if read.is_none() {
            self.is_refused = true;
        }
        read
    }

    fn write_file(&mut self, path: &str, text: &[u8]) -> bool {
        self.note("write ", path);
        if path == self.full {
            return false;
        }
        let is_written = self.written.extend_from_slice(text).is_ok();
        if !is_written {
            self.is_refused = true;
        }
        is_written
    }

    fn tell(&mut self, parts: &[&[u8]]) -> bool {
        self.note("tell", "");
        for part in parts {
            if self.errors.extend_from_slice(part).is_err() {
                self.is_refused = true;
                return false;
            }
        }
        true
    }

    fn run(
        &mut self,
        machine: &mut Machine,
        code: &Code,
        prepared: &Prepared,
        budget: u64,
    ) -> Stop {
        self.note("run", "");
        let mut reader = Counted::new(b"".as_slice());
        let mut writer = Counted::new(mem::replace(&mut self.output, Vec::new(self.alloc)));
        let stop = machine.run_prepared(code, prepared, &mut reader, &mut writer, budget);
        self.output = writer.into_inner();
        stop
    }
}
