//! The words of the commands `pcom` and `pint`.
#![tactic(auto)]

ghost use Rattle.std.specs.Prelude.{◌≡◌, ◌≢◌, ◌↔◌, IfOk, IsTrue};
ghost use Rattle.clap.specs.Words.{kind_of};
ghost use Rattle.clap.specs.declared.error.kind.ErrorKind.TheVariants as ErrorKind;
ghost use Rattle.command_line.specs.Words.{words_fault};
ghost use Rattle.memory.specs.Refused.{the_refusal};
ghost use Rattle.command_line.specs.declared.WordsFault.TheVariants.{Memory};

use memory::Refused;
use std::alloc::{AllocError, Global};

mod parts;
mod pcom;
mod pint;

pub use pcom::{PcomWords, pcom_words};
pub use pint::{PintWords, pint_words};

/// One of the two commands.
#[derive(Clone, Copy)]
pub enum CommandName {
    Pcom,
    Pint,
}

/// Why words are not taken, and the text to print.
#[derive(Drop)]
pub enum WordsFault {
    Memory(Refused),
    /// The help, the version or a fault, as clap tells it.
    Words(clap::Error),
}

impl From<AllocError> for WordsFault {
    ghost from_gives = { λ _ e. e ≡ Memory the_refusal };

    fn from(error: AllocError) -> WordsFault {
        WordsFault::Memory(error.into())
    }
}

impl From<clap::Error> for WordsFault {
    ghost from_gives = { λ error e. e ≡ words_fault (kind_of error) error };

    fn from(error: clap::Error) -> WordsFault {
        match error.kind() {
            clap::error::ErrorKind::OutOfMemory => WordsFault::Memory(AllocError.into()),
            _ => WordsFault::Words(error),
        }
    }
}

/// The fault of words of which one isn't UTF-8, and so no path and no option, as clap tells it of the command.
pub fn not_utf8(alloc: Global, name: CommandName) -> Result<clap::Error, AllocError>
    ensures { IfOk result (λ told. kind_of told ≡ ErrorKind.Io) }
{
    let mut command = match name {
        CommandName::Pcom => pcom::command(alloc)?,
        CommandName::Pint => pint::command(alloc)?,
    };
    command.error(
        clap::error::ErrorKind::Io,
        "invalid UTF-8 was detected in one or more arguments",
    )
}

/// Prints what clap tells, the help and the version to standard output, a fault of the words to standard error.
/// Answers whether it is a fault.
pub fn tell<R: Print + Eprint>(rt: &R, told: clap::Error) -> bool
    ensures { IsTrue result ↔ ((kind_of told ≢ ErrorKind.DisplayHelp) × (kind_of told ≢ ErrorKind.DisplayVersion)) }
{
    let _ = told.print(rt);
    told.use_stderr()
}
