//! The words of `pint`.
ghost use Rattle.std.specs.Prelude.{◌≡◌, IfOk, MatchResult, codes, map};
ghost use Rattle.clap.specs.Words.{app_of, rule_of};
ghost use Rattle.command_line.specs.Words.{IsWordsFault, WantsValue};
ghost use Rattle.command_line.specs.Pint.{AreSaid, ReadsCells, cells, pint};

use crate::WordsFault;
use crate::parts::{named, option, value};
use clap::{Arg, Command, value_parser};
use std::alloc::{AllocError, Global};

/// What the words of `pint` say.
#[derive(Clone, Copy)]
pub struct PintWords<'a> {
    /// How many cells the store has, 1 to 16,777,216: 1,000,000 where the words don't say it.
    pub cells: u32,
    /// The path of the code.
    pub code: &'a str,
}

/// How many cells the store has where the words don't say it.
const CELLS: u32 = 1_000_000;

/// What the help begins with.
const ABOUT: &str = "Runs the code that pcom wrote";

/// What the help ends with.
const AFTER_HELP: &str = "\
The code is read whole, and then runs over standard input. Standard output has
its output and nothing else.

Status, that of a run under pcom --go, and what is written to standard error:
  0  nothing: the program finished
  2  the code is refused, and nothing is run: code:LINE: refused CODE
  3  wrong words; cannot read PATH; no memory; read failed; write failed;
     budget used up
  4  LINE:COLUMN: error: NAME, where the program failed
  5  LINE:COLUMN: input: NAME, where the program stopped for its input
  6  store full
  7  machine fault CODE

Example:
  pint --cells 4096 sum.code";

/// Reads the words of `pint [--cells N] CODE`, the program's name first.
pub fn pint_words<'a>(alloc: Global, words: &'a [&'a str]) -> Result<PintWords<'a>, WordsFault>
    ensures { MatchResult result
        (AreSaid (map (λ w. w.now) words.entry.now)) (IsWordsFault pint (map (λ w. w.now) words.entry.now)) }
{
    let matches = command(alloc)?.try_get_matches_from(words)?;
    Ok(PintWords {
        cells: matches.get_one::<u32>("cells").unwrap_or(CELLS),
        code: matches.get_str("code").unwrap_or(""),
    })
}

// The command.
pub(crate) fn command<'a>(alloc: Global) -> Result<Command<'a>, AllocError>
    ensures app { IfOk result (λ command. app_of command ≡ pint) }
    ensures cells { IfOk result ReadsCells }
    ensures code { IfOk result (WantsValue (codes "code")) }
{
    named(alloc, "pint", ABOUT, AFTER_HELP)
        .arg(cells_option(alloc))?
        .arg(value(alloc, "code", "CODE", "The text of the code").required(true))
}

// The option `--cells N`.
fn cells_option(alloc: Global) -> Arg<'static>
    ensures { rule_of result ≡ cells }
{
    option(
        alloc,
        "cells",
        "N",
        "The cells of the store, 1 to 16777216 [default: 1000000]",
    )
    .value_parser(value_parser!(u32).range(1..=16_777_216))
}
