//! The names of the commands, and the arguments that each has.
ghost use Rattle.std.specs.Prelude.{◌≡◌};
ghost use Rattle.command_words.specs.CommandName.{app_for, named_by, text_of};
ghost use Rattle.command_words.specs.Argument.{app_of_arguments};

use crate::argument::Argument;

/// The name of a command.
#[derive(Clone, Copy, Debug, PartialEq, Eq)]
pub enum CommandName {
    /// The k nearest series of each query.
    Nearest,
    /// The series within a radius of each query.
    Range,
    /// Checks a certificate.
    Verify,
    /// A search over random walks.
    Trial,
    /// Writes a series file in version 2, with a label for each series.
    Convert,
    /// Writes the index of a series file.
    Save,
    /// The k nearest windows of one long series.
    Windows,
    /// The k series whose nearest other is farthest.
    Discord,
}

const DATA: Argument = Argument::Positional("DATA");

const QUERIES: Argument = Argument::Positional("QUERIES");

const SERIES: Argument = Argument::Positional("SERIES");

const RADIUS: Argument = Argument::Positional("RADIUS");

const STEP: Argument = Argument::Positional("STEP");

const SEED: Argument = Argument::Positional("SEED");

const COUNT: Argument = Argument::Positional("COUNT");

const LENGTH: Argument = Argument::Positional("LENGTH");

const CERTIFICATE: Argument = Argument::Positional("CERTIFICATE");

const K: Argument = Argument::Valued("k");

const SEGMENTS: Argument = Argument::Valued("segments");

const LEAF: Argument = Argument::Valued("leaf");

const WORKERS: Argument = Argument::Valued("workers");

const QUEUES: Argument = Argument::Valued("queues");

const BREAKS: Argument = Argument::Valued("breaks");

const RAW: Argument = Argument::Valued("raw");

const INDEX: Argument = Argument::Valued("index");

const APART: Argument = Argument::Valued("apart");

const CERTIFIED: Argument = Argument::Flag("certificate");

const SEALED: Argument = Argument::Flag("sealed");

static NEAREST: [Argument; 12] = [
    DATA, QUERIES, K, SEGMENTS, LEAF, WORKERS, QUEUES, BREAKS, RAW, INDEX, CERTIFIED, SEALED,
];

static RANGE: [Argument; 8] = [DATA, QUERIES, RADIUS, SEGMENTS, LEAF, WORKERS, BREAKS, RAW];

static VERIFY: [Argument; 7] = [DATA, QUERIES, CERTIFICATE, K, SEGMENTS, BREAKS, RAW];

static TRIAL: [Argument; 11] = [
    SEED, COUNT, LENGTH, QUERIES, K, SEGMENTS, LEAF, WORKERS, QUEUES, BREAKS, SEALED,
];

static CONVERT: [Argument; 2] = [DATA, RAW];

static SAVE: [Argument; 6] = [DATA, SEGMENTS, LEAF, WORKERS, BREAKS, RAW];

static WINDOWS: [Argument; 12] = [
    SERIES, QUERIES, STEP, K, SEGMENTS, LEAF, WORKERS, QUEUES, BREAKS, SEALED, RAW, APART,
];

static DISCORD: [Argument; 7] = [DATA, K, SEGMENTS, LEAF, WORKERS, BREAKS, RAW];

impl CommandName {
    /// The command that the word names.
    pub fn named_by(word: &str) -> Option<CommandName>
        ensures { result ≡ named_by word.now }
    {
        match word {
            "nearest" => Some(CommandName::Nearest),
            "range" => Some(CommandName::Range),
            "verify" => Some(CommandName::Verify),
            "trial" => Some(CommandName::Trial),
            "convert" => Some(CommandName::Convert),
            "save" => Some(CommandName::Save),
            "windows" => Some(CommandName::Windows),
            "discord" => Some(CommandName::Discord),
            _ => None,
        }
    }

    /// The word that names the command.
    pub fn text(self) -> &'static str
        ensures { result.now ≡ text_of self }
    {
        match self {
            CommandName::Nearest => "nearest",
            CommandName::Range => "range",
            CommandName::Verify => "verify",
            CommandName::Trial => "trial",
            CommandName::Convert => "convert",
            CommandName::Save => "save",
            CommandName::Windows => "windows",
            CommandName::Discord => "discord",
        }
    }

    /// The arguments of the command.
    #[tactic(auto, unfolding(crate::specs::CommandName::app_for))]
    pub fn arguments(self) -> &'static [Argument]
        ensures { app_of_arguments (text_of self) result.now ≡ app_for self }
    {
        match self {
            CommandName::Nearest => NEAREST.as_slice(),
            CommandName::Range => RANGE.as_slice(),
            CommandName::Verify => VERIFY.as_slice(),
            CommandName::Trial => TRIAL.as_slice(),
            CommandName::Convert => CONVERT.as_slice(),
            CommandName::Save => SAVE.as_slice(),
            CommandName::Windows => WINDOWS.as_slice(),
            CommandName::Discord => DISCORD.as_slice(),
        }
    }
}
