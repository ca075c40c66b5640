//! A worker of a team. It has plain parameters alone, so that it goes to a thread of its own whatever it makes.
use claim_word::ClaimPass;

/// A worker of a team: its right to draw numbers, and what it has made of them.
#[derive(Drop)]
pub struct TeamWorker<M> {
    /// The place of the worker in its team, from 0.
    pub number: u32,
    /// How many turns it has taken.
    pub turn: u64,
    /// Its right to draw.
    pub pass: ClaimPass,
    /// What it made, once it has drawn to the end. None before, and where memory did not suffice.
    pub made: Option<M>,
}
