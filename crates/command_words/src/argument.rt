//! The arguments of a command, and the `clap` command that reads them.
ghost use Rattle.std.specs.Prelude.{◌≡◌, IfOk, false};
ghost use Rattle.clap.specs.Words.{app_of, rule_of};
ghost use Rattle.command_words.specs.Argument.{app_of_arguments, rule_for};

use clap::{Arg, ArgAction, Command};
use std::alloc::{AllocError, Global};

/// An argument of a command, with its name.
#[derive(Clone, Copy)]
pub enum Argument {
    /// A word at its place, which has to be there.
    Positional(&'static str),
    /// An option with one value: `--name value` or `--name=value`.
    Valued(&'static str),
    /// An option without a value: `--name`.
    Flag(&'static str),
}

/// What stands for the argument in `clap`.
fn clap_argument<'a>(alloc: Global, argument: &Argument) -> Arg<'a>
    ensures rule { rule_of result ≡ rule_for argument.now }
    ensures local { result.global ≡ false }
{
    match *argument {
        Argument::Positional(name) => Arg::new(alloc, name).required(true).action(ArgAction::Set),
        Argument::Valued(name) => Arg::new(alloc, name).long(name).action(ArgAction::Set),
        Argument::Flag(name) => Arg::new(alloc, name).long(name).action(ArgAction::SetTrue),
    }
}

/// The `clap` command of this name with these arguments.
pub fn clap_command<'a>(
    alloc: Global,
    name: &'a str,
    arguments: &[Argument],
) -> Result<Command<'a>, AllocError>
    ensures { IfOk result (λ c. app_of c ≡ app_of_arguments name.entry.now arguments.now) }
{
    let mut command = Command::new(alloc, name);
    for argument in arguments {
        command = command.arg(clap_argument(alloc, argument))?;
    }
    Ok(command)
}
