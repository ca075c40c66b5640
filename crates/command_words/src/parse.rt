//! The settings of words, read command by command, and of a whole command line.
ghost use Rattle.std.specs.Prelude.{◌≡◌, IfOk, map, option_and_then, slice_get, string_bytes};
ghost use Rattle.command_words.specs.Absence.{HoldsAbsence, IndexStandsAlone};
ghost use Rattle.command_words.specs.CommandName.{named_by};
ghost use Rattle.command_words.specs.Limits.{KeepsLimits, OptionsKeepLimits};
ghost use Rattle.command_words.specs.Options.{HasOptions, rows};
ghost use Rattle.command_words.specs.Settings.{FitsAs, FitsNone, HasSettings, has_stray_option, name_of, options_of};
ghost use Rattle.command_words.specs.declared.command.Command.{Command};

use crate::command::Command;
use crate::error::WordsError;
use crate::given::{given, is_flag_set, long_number_at, number_at, text_at};
use crate::limits::{MOST_QUERIES, MOST_RADIUS};
use crate::matching::matches_of;
use crate::name::CommandName;
use crate::options::{Options, options_of};
use clap::ArgMatches;
use series_core::{MAX_BEST, MAX_COUNT, MAX_LENGTH, MAX_VALUES};
use std::alloc::Global;

/// Whether `--index` stands beside an option that a saved index has settled, or `--certificate`.
fn has_stray_option(matches: &ArgMatches<'_>) -> bool
    ensures { result ≡ has_stray_option (rows matches.now) }
{
    given(matches, "index").is_some()
        && (given(matches, "segments").is_some()
            || given(matches, "leaf").is_some()
            || given(matches, "breaks").is_some()
            || is_flag_set(matches, "certificate"))
}

/// What the matches of `nearest DATA QUERIES` with these options ask for.
fn nearest(alloc: Global, matches: &ArgMatches<'_>, options: Options) -> Result<Command, WordsError>
    requires { HasOptions (rows matches.now) options }
    ensures ok { IfOk result (FitsAs CommandName.Nearest (rows matches.now)) }
    ensures usage { result ≡ Err WordsError.Usage → FitsNone CommandName.Nearest (rows matches.now) }
{
    if has_stray_option(matches) {
        return Err(WordsError::Usage);
    }
    Ok(Command::Nearest {
        series: text_at(alloc, matches, "DATA")?,
        queries: text_at(alloc, matches, "QUERIES")?,
        options,
    })
}

/// What the matches of `trial SEED COUNT LENGTH QUERIES` with these options ask for.
fn trial(matches: &ArgMatches<'_>, options: Options) -> Result<Command, WordsError>
    requires { HasOptions (rows matches.now) options }
    ensures ok { IfOk result (FitsAs CommandName.Trial (rows matches.now)) }
    ensures usage { result ≡ Err WordsError.Usage → FitsNone CommandName.Trial (rows matches.now) }
{
    let seed = long_number_at(matches, "SEED", 0, u64::MAX).ok_or(WordsError::Usage)?;
    let count = number_at(matches, "COUNT", 0, MAX_COUNT).ok_or(WordsError::Usage)?;
    let length = number_at(matches, "LENGTH", 1, MAX_LENGTH).ok_or(WordsError::Usage)?;
    let queries = number_at(matches, "QUERIES", 0, MOST_QUERIES).ok_or(WordsError::Usage)?;
    if u64::from(count) * u64::from(length) > u64::from(MAX_VALUES) {
        return Err(WordsError::Usage);
    }
    Ok(Command::Trial {
        seed,
        count,
        length,
        queries,
        options,
    })
}

/// What the matches of `windows SERIES QUERIES STEP` with these options ask for.
fn windows(alloc: Global, matches: &ArgMatches<'_>, options: Options) -> Result<Command, WordsError>
    requires has { HasOptions (rows matches.now) options }
    requires limits { OptionsKeepLimits options }
    ensures ok { IfOk result (FitsAs CommandName.Windows (rows matches.now)) }
    ensures usage { result ≡ Err WordsError.Usage → FitsNone CommandName.Windows (rows matches.now) }
{
    if options.windows_needed() > MAX_BEST {
        return Err(WordsError::Usage);
    }
    Ok(Command::Windows {
        series: text_at(alloc, matches, "SERIES")?,
        queries: text_at(alloc, matches, "QUERIES")?,
        step: number_at(matches, "STEP", 1, MAX_COUNT).ok_or(WordsError::Usage)?,
        options,
    })
}

/// The command of this name that the matches say.
fn command_given(
    alloc: Global,
    name: CommandName,
    matches: &ArgMatches<'_>,
) -> Result<Command, WordsError>
    ensures ok { IfOk result (FitsAs name (rows matches.now)) }
    ensures usage { result ≡ Err WordsError.Usage → FitsNone name (rows matches.now) }
{
    let options = options_of(alloc, matches)?;
    match name {
        CommandName::Nearest => nearest(alloc, matches, options),
        CommandName::Range => Ok(Command::Range {
            series: text_at(alloc, matches, "DATA")?,
            queries: text_at(alloc, matches, "QUERIES")?,
            radius: long_number_at(matches, "RADIUS", 0, MOST_RADIUS).ok_or(WordsError::Usage)?,
            options,
        }),
        CommandName::Verify => Ok(Command::Verify {
            series: text_at(alloc, matches, "DATA")?,
            queries: text_at(alloc, matches, "QUERIES")?,
            certificate: text_at(alloc, matches, "CERTIFICATE")?,
            options,
        }),
        CommandName::Trial => trial(matches, options),
        CommandName::Convert => Ok(Command::Convert {
            series: text_at(alloc, matches, "DATA")?,
            options,
        }),
        CommandName::Save => Ok(Command::Save {
            series: text_at(alloc, matches, "DATA")?,
            options,
        }),
        CommandName::Windows => windows(alloc, matches, options),
        CommandName::Discord => Ok(Command::Discord {
            series: text_at(alloc, matches, "DATA")?,
            options,
        }),
    }
}

/// The command that the first word names.
fn command_named(words: &[String]) -> Option<CommandName>
    ensures { result ≡ option_and_then named_by (slice_get (map string_bytes words.now) 0) }
{
    CommandName::named_by(words.first()?.as_str())
}

/// What the words ask for. The first word names the command, and the words after it are read by that
/// command's rules; a number is well spelled and within its limits. Usage comes only where the words have
/// no settings; where they have none and memory runs out before that is known, NoMemory comes.
pub fn parse_words(alloc: Global, words: &[String]) -> Result<Command, WordsError>
    ensures ok { IfOk result (λ c. HasSettings (map string_bytes words.now) c) }
    ensures limits { IfOk result KeepsLimits }
    ensures absent { IfOk result (λ c. HoldsAbsence (name_of c) (options_of c)) }
    ensures alone { IfOk result (λ c. IndexStandsAlone (options_of c)) }
    ensures same { (c : Command) → HasSettings (map string_bytes words.now) c → IfOk result (λ r. r ≡ c) }
    ensures usage { result ≡ Err WordsError.Usage → (c : Command)
        → HasSettings (map string_bytes words.now) c → ⊥ }
{
    let name = command_named(words).ok_or(WordsError::Usage)?;
    let matches = matches_of(alloc, name, words)?;
    command_given(alloc, name, &matches)
}
