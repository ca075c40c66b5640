//! The outside of a program as it is: files, streams to write to, and the words of the command line.
//! Nothing is known of what they hold; each refusal is counted, or named by its kind.
#![tactic(auto)]

#[cfg(test)]
mod claims;
mod counter;
mod real_files;
mod real_sink;
mod words;

pub use real_files::RealFiles;
pub use real_sink::RealSink;
pub use words::{WordsFault, collect_words};
