//! The words of `pcom`.
ghost use Rattle.std.specs.Prelude.{◌≡◌, IfOk, MatchResult, codes, map};
ghost use Rattle.clap.specs.Words.{app_of};
ghost use Rattle.command_line.specs.Words.{IsWordsFault, WantsValue};
ghost use Rattle.command_line.specs.Pcom.{AreSaid, pcom};

use crate::WordsFault;
use crate::parts::{flag, named, option, value};
use clap::Command;
use std::alloc::{AllocError, Global};

/// What the words of `pcom` say.
#[derive(Clone, Copy)]
pub struct PcomWords<'a> {
    /// The path of the source.
    pub source: &'a str,
    /// The path to which the code is to be written, if one is given.
    pub code: Option<&'a str>,
    /// The path of the certificate, if one is given.
    pub cert: Option<&'a str>,
    /// The path to which the certificate that is used is to be written, if one is given.
    pub write_cert: Option<&'a str>,
    /// Whether the code keeps all its checks.
    pub keep_checks: bool,
    /// Whether the code is to be run.
    pub go: bool,
}

/// What the help begins with.
const ABOUT: &str = "Compiles a Pascal program, names each place at which it can fail, and runs it";

/// What the help ends with.
const AFTER_HELP: &str = "\
Standard error has a line for each place at which the program can fail, in order:
  LINE:COLUMN: possible error: NAME
No line means that it cannot fail. With --go it then runs, with the checks of
these places alone, over standard input. Standard output has its output and
nothing else.

A certificate says which variables each loop and each routine changes, and what
holds whenever a turn or a call begins. Each claim is checked. Without --cert
one is found for the source. With --write-cert the one that is used is written
to a file, before anything is told; where the source is refused, none is.

With CODE the text of the code is written to that file, after the certificate
and before anything is told; where the source is refused, none is. pint runs
it. With --keep-checks the code keeps all its checks; the report is the same.

Status, and what else is written to standard error:
  0  nothing, and with --go the program finished
  1  possible errors, and with --go the program finished
  2  the source or the certificate is refused, and nothing is run:
     LINE:COLUMN: refused CODE; refused G1; certificate:LINE: refused CODE;
     certificate refused C1; LINE:COLUMN: certificate refused CODE
  3  wrong words; cannot read PATH; cannot write PATH; no memory; read failed;
     write failed; budget used up
  4  LINE:COLUMN: error: NAME, where the program failed
  5  LINE:COLUMN: input: NAME, where the program stopped for its input
  6  store full
  7  machine fault CODE

Examples:
  pcom --cert sum.cert --go sum.pas
  pcom sum.pas sum.code";

/// Reads the words of `pcom [--cert FILE] [--write-cert FILE] [--keep-checks] [--go] SOURCE [CODE]`, the program's
/// name first.
pub fn pcom_words<'a>(alloc: Global, words: &'a [&'a str]) -> Result<PcomWords<'a>, WordsFault>
    ensures { MatchResult result
        (AreSaid (map (λ w. w.now) words.entry.now)) (IsWordsFault pcom (map (λ w. w.now) words.entry.now)) }
{
    let matches = command(alloc)?.try_get_matches_from(words)?;
    Ok(PcomWords {
        source: matches.get_str("source").unwrap_or(""),
        code: matches.get_str("code"),
        cert: matches.get_str("cert"),
        write_cert: matches.get_str("write-cert"),
        keep_checks: matches.get_flag("keep-checks"),
        go: matches.get_flag("go"),
    })
}

// The command.
pub(crate) fn command<'a>(alloc: Global) -> Result<Command<'a>, AllocError>
    ensures app { IfOk result (λ command. app_of command ≡ pcom) }
    ensures source { IfOk result (WantsValue (codes "source")) }
{
    named(alloc, "pcom", ABOUT, AFTER_HELP)
        .arg(option(alloc, "cert", "FILE", "The certificate of the source"))?
        .arg(option(
            alloc,
            "write-cert",
            "FILE",
            "Where the certificate that is used is written",
        ))?
        .arg(flag(alloc, "keep-checks", "Keeps all checks in the code"))?
        .arg(flag(alloc, "go", "Runs the program"))?
        .arg(value(alloc, "source", "SOURCE", "The Pascal source").required(true))?
        .arg(value(alloc, "code", "CODE", "Where the code is written"))
}
