//! Sealed runs: the entries of each queue in ascending order, which workers pop without a lock.
//! Run m holds the entries of queue m and one counter, from which each pop draws the next place; `close` says which
//! entries were taken and which limit was kept.
#![tactic(auto)]

mod closed;
mod pass;
mod run;
mod runs;
mod sealing;
mod tally;

pub use closed::RunsClosed;
pub use pass::RunPass;
pub use runs::Runs;
