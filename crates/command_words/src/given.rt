//! What was given for one argument. Each function answers from the matches alone.
ghost use Rattle.std.specs.Prelude.{◌≡◌, ℕ, List, IfOk, Some, option_map};
ghost use Rattle.clap.specs.Words.{first_of};
ghost use Rattle.command_words.specs.Number.{number_within};
ghost use Rattle.command_words.specs.Options.{is_set, number_at, number_if, number_or, rows, table_named};

use crate::error::WordsError;
use crate::number::number_within;
use crate::text::Text;
use breakpoints::Table;
use clap::ArgMatches;
use std::alloc::{AllocError, Global};

/// What follows `--name`, or stands at the place of this name.
pub fn given<'a>(matches: &ArgMatches<'a>, name: &str) -> Option<&'a str>
    ensures { option_map (λ s. s.now) result ≡ first_of name.now (rows matches.now) }
{
    matches.get_str(name)
}

/// Whether the flag was given.
pub fn is_flag_set(matches: &ArgMatches<'_>, name: &str) -> bool
    ensures { result ≡ is_set (first_of name.now (rows matches.now)) }
{
    match given(matches, name) {
        Some(value) => value == "true",
        None => false,
    }
}

/// The text at the place of this name.
pub fn text_at(alloc: Global, matches: &ArgMatches<'_>, name: &str) -> Result<Text, WordsError>
    ensures ok { IfOk result (λ t. first_of name.now (rows matches.now) ≡ Some t) }
    ensures usage { result ≡ Err WordsError.Usage → (t : List ℕ)
        → first_of name.now (rows matches.now) ≡ Some t → ⊥ }
{
    match given(matches, name) {
        Some(value) => {
            let text = String::from_str(alloc, value)?;
            Ok(Text { text })
        }
        None => Err(WordsError::Usage),
    }
}

/// The text of an option, where it was given.
pub fn text_if(
    alloc: Global,
    matches: &ArgMatches<'_>,
    name: &str,
) -> Result<Option<Text>, AllocError>
    ensures { IfOk result (λ t. first_of name.now (rows matches.now) ≡ t) }
{
    match given(matches, name) {
        Some(value) => {
            let text = String::from_str(alloc, value)?;
            Ok(Some(Text { text }))
        }
        None => Ok(None),
    }
}

/// The number that the text spells, where it lies from `least` to `most`.
fn short_number_within(text: &str, least: u32, most: u32) -> Option<u32>
    ensures { result ≡ number_within least most text.now }
{
    match number_within(text, u64::from(least), u64::from(most)) {
        Some(n) => Some(n as u32),
        None => None,
    }
}

/// The number of up to 64 bits at the place of this name.
pub fn long_number_at(matches: &ArgMatches<'_>, name: &str, least: u64, most: u64) -> Option<u64>
    ensures { result ≡ number_at least most (first_of name.now (rows matches.now)) }
{
    match given(matches, name) {
        Some(value) => number_within(value, least, most),
        None => None,
    }
}

/// The number of up to 32 bits at the place of this name.
pub fn number_at(matches: &ArgMatches<'_>, name: &str, least: u32, most: u32) -> Option<u32>
    ensures { result ≡ number_at least most (first_of name.now (rows matches.now)) }
{
    match given(matches, name) {
        Some(value) => short_number_within(value, least, most),
        None => None,
    }
}

/// The number of the option, or `absent` where it was not given.
pub fn number_or(
    matches: &ArgMatches<'_>,
    name: &str,
    least: u32,
    most: u32,
    absent: u32,
) -> Option<u32>
    ensures { result ≡ number_or least most absent (first_of name.now (rows matches.now)) }
{
    match given(matches, name) {
        Some(value) => short_number_within(value, least, most),
        None => Some(absent),
    }
}

/// The number of the option, or None where it was not given.
pub fn number_if(matches: &ArgMatches<'_>, name: &str, least: u32, most: u32) -> Option<Option<u32>>
    ensures { result ≡ number_if least most (first_of name.now (rows matches.now)) }
{
    match given(matches, name) {
        Some(value) => match short_number_within(value, least, most) {
            Some(n) => Some(Some(n)),
            None => None,
        },
        None => Some(None),
    }
}

/// The table of breakpoints that the option names, or the flat one where it was not given.
pub fn table_named(matches: &ArgMatches<'_>, name: &str) -> Option<Table>
    ensures { result ≡ table_named (first_of name.now (rows matches.now)) }
{
    match given(matches, name) {
        Some("flat") => Some(Table::Flat),
        Some("bent") => Some(Table::Bent),
        Some(_) => None,
        None => Some(Table::Flat),
    }
}
