//! What is searched, and over how many queues.
use search_task::Search;
use series_core::Rows;

/// What all workers of a search have in common: the search, and how many queues there are.
#[derive(Drop)]
pub struct Plan<'a, R: Rows> {
    /// What is asked for, and the index that is searched for it.
    pub search: Search<'a, R>,
    /// How many queues there are.
    pub queues: u32,
}
