//! The core of a search for the k nearest rows with its whole outcome: the worker, whose every turn is a turn of the machine in
//! `search_machine`, and searches by workers in one thread.
//! Its worker makes one call a turn on what the workers share, whatever that is: here it is held by one thread.
#![tactic(auto)]

mod alone;
mod bound_share;
mod conclusion;
mod ended;
mod limits;
mod merging;
mod one_thread;
mod opening;
mod playing;
mod portion_laws;
mod shared;
mod stage;
mod team;
mod turn;
mod walk;
mod worker;

pub use alone::one_worker;
pub use conclusion::conclude;
pub use limits::Limits;
pub use one_thread::OneThread;
pub use opening::{empty_queues, hire, limit_of};
pub use playing::{ReplayError, replay};
pub use portion_laws::{portions_example, portions_law};
pub use search_machine::{
    Call, EntryList, Fate, FateList, LineList, Onward, Outcome, Phase, QueueLine, Reply, Start,
};
pub use search_task::{Search, Task};
pub use shared::Shared;
pub use turn::Turn;
pub use worker::Worker;
