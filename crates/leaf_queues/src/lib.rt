//! The queue of leaves of a search: an object for a turn lock, with calls that put an entry and pop the least one.
//!
//! What it means stands in `specs/PlainQueue.antt`, with no heap in it: an ascending list of waiting entries.
//! A queue keeps its entries in one vector and puts them in order late, bucket by bucket. All its room is reserved when it
//! is made, so that no call takes memory.
#![tactic(auto)]

mod calls;
mod line;
mod queue;

pub use calls::{Call, Reply};
pub use queue::Queue;
