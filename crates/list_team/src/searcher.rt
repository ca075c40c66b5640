//! A worker: its rights to draw, and to read and lower the limit, and the k best pairs of what it drew.
use crate::apart::Apart;
use best_word::WordPass;
use claim_word::ClaimPass;
use series_core::KBest;

/// A worker of a team.
#[derive(Drop)]
pub struct Searcher {
    /// The place of the worker in its team, from 0.
    pub number: u32,
    /// How many turns it has taken.
    pub turn: u64,
    /// Its right to draw.
    pub pass: ClaimPass,
    /// Its right to the limit.
    pub word: WordPass,
    /// The k best pairs of what it drew.
    pub list: KBest,
    /// Whether it drew to the end. False before, and where memory did not suffice.
    pub ended: bool,
    /// What keeps it apart from the next in a row.
    pub apart: Apart,
}
