//! The words of a command line: what the program is asked to do, or that the words ask for nothing.
//! Each command is read by one simple `clap` command of its own, by `clap`'s own definitions.
#![tactic(auto)]

mod argument;
mod command;
mod error;
mod given;
mod laws;
mod limits;
mod matching;
mod name;
mod number;
mod options;
mod parse;
mod text;

pub use command::Command;
pub use error::WordsError;
pub use laws::one_command_law;
pub use limits::{MOST_QUERIES, USUAL_LEAF};
pub use options::Options;
pub use parse::parse_words;
pub use text::Text;
