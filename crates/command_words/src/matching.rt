//! The matches of a command on words, by `clap`. Words that it refuses have none.
ghost use Rattle.std.specs.Prelude.{◌≡◌, [], IfOk, map, string_bytes};
ghost use Rattle.clap.specs.Words.{app_of};
ghost use Rattle.command_words.specs.CommandName.{app_for, faults_of, rows_of_words};
ghost use Rattle.command_words.specs.Options.{rows};

use crate::argument::clap_command;
use crate::error::WordsError;
use crate::name::CommandName;
use clap::error::ErrorKind;
use clap::{ArgMatches, Command};
use std::alloc::{AllocError, Global};

/// The `clap` command of a command.
fn clap_command_of<'a>(alloc: Global, name: CommandName) -> Result<Command<'a>, AllocError>
    ensures { IfOk result (λ c. app_of c ≡ app_for name) }
{
    let text: &'a str = name.text();
    clap_command(alloc, text, name.arguments())
}

/// The matches of the command on the words, the first of which stands for the program.
pub fn matches_of<'a>(
    alloc: Global,
    name: CommandName,
    words: &'a [String],
) -> Result<ArgMatches<'a>, WordsError>
    ensures taken { IfOk result (λ m. faults_of name (map string_bytes words.entry.now) ≡ []) }
    ensures matches { IfOk result (λ m.
        rows m ≡ rows_of_words name (map string_bytes words.entry.now)) }
    ensures usage { result ≡ Err WordsError.Usage
        → faults_of name (map string_bytes words.entry.now) ≡ [] → ⊥ }
{
    let command = clap_command_of(alloc, name)?;
    match command.try_get_matches_from(words) {
        Ok(matches) => Ok(matches),
        Err(error) => match error.kind() {
            ErrorKind::OutOfMemory => Err(WordsError::NoMemory),
            _ => Err(WordsError::Usage),
        },
    }
}
