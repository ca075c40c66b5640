//! Workers side by side: a call at each place of a row, each in a thread of its own, and teams: a worker for each pass over a
//! counter, with what it has made. A team starts no thread: whoever has one lets its workers work, side by side or one after
//! another, and whether memory sufficed is reported by each worker alike.
#![tactic(auto)]

mod row;
mod team;
mod worker;

pub use row::for_each_mut;
pub use team::{dismiss, hire, joined};
pub use worker::TeamWorker;

#[cfg(test)]
mod tests;
