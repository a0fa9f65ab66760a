//! What a program of the compiler does outside of itself: the words of its command, files, messages, and runs.
#![tactic(auto)]

ghost use Rattle.std.specs.Prelude.{◌≢◌, ◌↔◌, IsTrue, List, Option, flat_map, option_map};
ghost use Rattle.clap.specs.Words.{kind_of};
ghost use Rattle.clap.specs.declared.error.kind.ErrorKind.TheVariants as ErrorKind;
ghost use Rattle.stack_machine.specs.Does.{cell_count};
ghost use Rattle.stack_machine.specs.Stands.{Stands};
ghost use Rattle.outside.specs.Acts.{Act, Answered, Follows, IsRun, RanCode, ReadFile, Streams, Told, WroteFile};

use pcode_assembler::Code;
use prepared_steps::Prepared;
use stack_machine::{Machine, Stop};

/// What lies outside of a program: whoever implements it says what its acts do, and lets nothing else be done.
pub trait Outside {
    /// What was done so far, one act after another, where that is known.
    ghost acts: { Self → Option (List Act) };

    /// Prints what clap tells of a command's words, the help and the version to standard output, a fault of the words
    /// to standard error. Answers whether it is a fault.
    fn answer(&mut self, told: clap::Error) -> bool
        ensures done { Follows (acts self.old) (acts self.new) (Answered (kind_of told)) }
        ensures fault { IsTrue result ↔ ((kind_of told ≢ ErrorKind.DisplayHelp)
            × (kind_of told ≢ ErrorKind.DisplayVersion)) };

    /// The bytes of the file of a path, if it can be read and there is memory for them.
    fn read_file(&mut self, path: &str) -> Option<Vec<u8>>
        ensures { Follows (acts self.old) (acts self.new)
            (ReadFile path.now (option_map (λ bytes. bytes.items) result)) };

    /// Writes a text to the file of a path, in place of what it held, and answers whether all of it was taken.
    fn write_file(&mut self, path: &str, text: &[u8]) -> bool
        ensures { Follows (acts self.old) (acts self.new) (WroteFile path.now text.now result) };

    /// Writes a text in parts to standard error, and answers whether all of it was taken.
    fn tell(&mut self, parts: &[&[u8]]) -> bool
        ensures { Follows (acts self.old) (acts self.new) (Told (flat_map (λ part. part.now) parts.now) result) };

    /// Runs a code, for which these steps are prepared, on a machine for at most `budget` instructions, from standard
    /// input to standard output, and answers how it stopped.
    fn run(&mut self, machine: &mut Machine, code: &Code, prepared: &Prepared, budget: u64) -> Stop
        requires { Stands code.now.instructions.items prepared.now }
        ensures { (before after : Streams) × IsRun code.now (cell_count machine.old) budget result before after
            × Follows (acts self.old) (acts self.new)
            (RanCode code.now (cell_count machine.old) budget result before after) };
}
