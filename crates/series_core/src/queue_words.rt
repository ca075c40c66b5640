//! What is put into a queue of leaves and taken out of it, and how the queue replies.
//! Entries are ordered by lower bound, then by leaf.

/// A leaf with its lower bound for a query.
#[derive(Clone, Copy, PartialEq, Eq, PartialOrd, Ord, Debug)]
pub struct Entry {
    /// The lower bound of the leaf's word: at most the squared distance to each member.
    pub bound: u64,
    /// The number of the leaf.
    pub leaf: u32,
}

/// How a queue replies to a put.
#[derive(Clone, Copy, PartialEq, Eq, Debug)]
pub enum PutReply {
    /// The entry waits in the queue.
    Placed,
    /// The queue was shut before, and keeps this limit.
    Shut(u64),
    /// The queue is not shut, and this many puts were placed: as many as it has room for.
    Filled(u32),
}

/// How a queue replies to a pop.
#[derive(Clone, Copy, PartialEq, Eq, Debug)]
pub enum PopReply {
    /// The least entry, which is now taken.
    Leaf(Entry),
    /// The queue is shut, with this limit.
    Closed(u64),
}
