//! What both commands are made of.
ghost use Rattle.std.specs.Prelude.{◌≡◌};
ghost use Rattle.clap.specs.Words.{rule_of};
ghost use Rattle.command_line.specs.Words.{IsNamed, flag, option, value};

use clap::{Arg, ArgAction, Command};
use std::alloc::Global;

/// A command with no argument, whose help begins with `about` and ends with `after_help`.
pub(crate) fn named<'a>(
    alloc: Global,
    name: &'a str,
    about: &'a str,
    after_help: &'a str,
) -> Command<'a>
    ensures { IsNamed name.entry.now result }
{
    Command::new(alloc, name)
        .version("0.1.0")
        .about(about)
        .after_help(after_help)
}

/// The option `--NAME SHOWN`.
pub(crate) fn option<'a>(alloc: Global, name: &'a str, shown: &'a str, help: &'a str) -> Arg<'a>
    ensures { rule_of result ≡ option name.entry.now }
{
    value(alloc, name, shown, help).long(name)
}

/// The flag `--NAME`.
pub(crate) fn flag<'a>(alloc: Global, name: &'a str, help: &'a str) -> Arg<'a>
    ensures { rule_of result ≡ flag name.entry.now }
{
    Arg::new(alloc, name)
        .long(name)
        .help(help)
        .action(ArgAction::SetTrue)
}

/// A value that stands by itself.
pub(crate) fn value<'a>(alloc: Global, name: &'a str, shown: &'a str, help: &'a str) -> Arg<'a>
    ensures { rule_of result ≡ value name.entry.now }
{
    Arg::new(alloc, name)
        .value_name(shown)
        .help(help)
        .action(ArgAction::Set)
}
