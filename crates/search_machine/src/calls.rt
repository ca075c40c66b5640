//! What a worker asks of what the workers share, and what it is answered. Each turn makes one call.
use series_core::{Entry, PopReply, PutReply};

/// A call of a worker on what the workers share.
#[derive(Clone, Copy, PartialEq, Eq, Debug)]
pub enum Call {
    /// The next root child is wanted.
    Claim,
    /// The bound word is wanted.
    Read,
    /// The bound word is to be no more than this distance.
    Offer(u64),
    /// The entry is to wait in this queue.
    Put(u32, Entry),
    /// The least entry of this queue is wanted, where its bound is not above this limit.
    Pop(u32, u64),
}

/// The answer to a call.
#[derive(Clone, Copy, PartialEq, Eq, Debug)]
pub enum Reply {
    /// The root child that is claimed, or that none is left.
    Claimed(Option<u64>),
    /// The bound word.
    Seen(u64),
    /// What the bound word was before the offer.
    Offered(u64),
    /// The queue's answer to a put.
    PutTold(PutReply),
    /// The queue's answer to a pop.
    PopTold(PopReply),
}
