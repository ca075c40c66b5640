//! What is asked of a queue of leaves, and what it answers. A put is answered by a put's reply, a pop by a pop's.
use series_core::{Entry, PopReply, PutReply};

/// A call on a queue of leaves.
#[derive(Clone, Copy, PartialEq, Eq, Debug)]
pub enum Call {
    /// The entry is to wait.
    Put(Entry),
    /// The least entry is wanted, where its lower bound is not above this limit.
    Pop(u64),
}

/// The answer to a call.
#[derive(Clone, Copy, PartialEq, Eq, Debug)]
pub enum Reply {
    /// The answer to a put.
    Put(PutReply),
    /// The answer to a pop.
    Pop(PopReply),
}
