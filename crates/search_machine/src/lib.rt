//! The machine of a search: workers that take small turns over what they share, and the laws that hold whatever the order of
//! the turns.
//! No tree, no row, no file and no thread is in it: a search stands on a ground of numbers, and what a worker, its record and
//! the closed objects are is said by definitions alone. A crate that runs a search shows that its workers are the machine's.
#![tactic(auto)]

mod calls;
pub mod examples;
pub mod laws;
mod outcome;
mod phase;

pub use calls::{Call, Reply};
pub use outcome::{EntryList, Fate, FateList, LineList, Outcome, QueueLine, Start};
pub use phase::{Onward, Phase};
