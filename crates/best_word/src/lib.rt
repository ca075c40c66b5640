//! The best-so-far that workers share: a number that only falls, by reads and offers.
//! `BestWord` is the shared number and `WordPass` the right of one worker to it. What a pass read and offered stands
//! in its trace, and `BestWord::close` says how the traces of all passes fit together.
#![tactic(auto)]

mod floor;
mod number;
mod pass;
mod rule;

pub use floor::Floor;
pub use number::BestWord;
pub use pass::WordPass;

#[cfg(test)]
mod tests;
