//! The options of a command, each with its limits and the value for absence.
ghost use Rattle.std.specs.Prelude.{◌≡◌, IfOk, IfSome, codes};
ghost use Rattle.clap.specs.Words.{first_of};
ghost use Rattle.command_words.specs.Limits.{OptionsKeepLimits};
ghost use Rattle.command_words.specs.Options.{HasOptions, rows, windows_needed};
ghost use Rattle.command_words.specs.declared.options.Options.{Options};

use crate::error::WordsError;
use crate::given::{is_flag_set, number_if, number_or, table_named, text_if};
use crate::limits::{USUAL_LEAF, USUAL_QUEUES, USUAL_WORKERS};
use crate::text::Text;
use breakpoints::Table;
use clap::ArgMatches;
use search_limits::{MOST_APART, MOST_LEAF, MOST_QUEUES, MOST_SEGMENTS, MOST_WORKERS};
use series_core::{MAX_BEST, MAX_LENGTH};
use std::alloc::Global;

/// The options of a command. One that the command does not have holds its value for absence.
#[derive(Drop)]
pub struct Options {
    /// How many of the nearest: 1 to 1024, where absent 1.
    pub k: u32,
    /// How many segments a series is cut into: 1 to 16, where absent None.
    pub segments: Option<u32>,
    /// How many series a leaf holds before it is split: 1 to 65535, where absent 1000.
    pub leaf: u32,
    /// How many workers: 1 to 64, where absent 4.
    pub workers: u32,
    /// How many leaf queues: 1 to 64, where absent 2.
    pub queues: u32,
    /// The table of breakpoints: where absent flat.
    pub table: Table,
    /// The length of the series of files without a header: 1 to 65536, where absent None.
    pub raw: Option<u32>,
    /// Whether to write a certificate.
    pub certificate: bool,
    /// Whether to search over sealed runs in place of locked queues.
    pub sealed: bool,
    /// The name of a saved index: where absent None.
    pub index: Option<Text>,
    /// By how much the numbers of two windows have to differ: 1 to 512, where absent 1.
    pub apart: u32,
}

impl Options {
    /// How many of the nearest windows are needed, so that `k` that lie `apart` are among them.
    pub fn windows_needed(&self) -> u32
        requires { OptionsKeepLimits self.now }
        ensures { result ≡ windows_needed self.now }
    {
        (self.k - 1) * (2 * self.apart - 1) + 1
    }
}

/// The options of the matches, each within its limits, with the name of the index.
fn options_with(matches: &ArgMatches<'_>, index: Option<Text>) -> Option<Options>
    requires { first_of (codes "index") (rows matches.now) ≡ index }
    ensures some { IfSome result (HasOptions (rows matches.now)) }
    ensures none { result ≡ None → (o : Options) → HasOptions (rows matches.now) o → ⊥ }
{
    let k = number_or(matches, "k", 1, MAX_BEST, 1)?;
    let segments = number_if(matches, "segments", 1, MOST_SEGMENTS)?;
    let leaf = number_or(matches, "leaf", 1, MOST_LEAF, USUAL_LEAF)?;
    let workers = number_or(matches, "workers", 1, MOST_WORKERS, USUAL_WORKERS)?;
    let queues = number_or(matches, "queues", 1, MOST_QUEUES, USUAL_QUEUES)?;
    let table = table_named(matches, "breaks")?;
    let raw = number_if(matches, "raw", 1, MAX_LENGTH)?;
    let apart = number_or(matches, "apart", 1, MOST_APART, 1)?;
    Some(Options {
        k,
        segments,
        leaf,
        workers,
        queues,
        table,
        raw,
        certificate: is_flag_set(matches, "certificate"),
        sealed: is_flag_set(matches, "sealed"),
        index,
        apart,
    })
}

/// The options of the matches, each within its limits.
pub fn options_of(alloc: Global, matches: &ArgMatches<'_>) -> Result<Options, WordsError>
    ensures ok { IfOk result (HasOptions (rows matches.now)) }
    ensures limits { IfOk result OptionsKeepLimits }
    ensures usage { result ≡ Err WordsError.Usage → (o : Options) → HasOptions (rows matches.now) o → ⊥ }
{
    let index = text_if(alloc, matches, "index")?;
    options_with(matches, index).ok_or(WordsError::Usage)
}
