//! The phases of a worker: what its next turn does.

/// Where a worker goes on after an offer.
#[derive(Clone, Copy, PartialEq, Eq, Debug)]
pub enum Onward {
    /// To the rest of its root child.
    Look,
    /// To the queue at this place of its round.
    Aim(u32),
}

/// What the next turn of a worker does: it makes one call, and the reply decides the phase after
/// it.
#[derive(Clone, Copy, PartialEq, Eq, Debug)]
pub enum Phase {
    /// It claims a root child.
    Claim,
    /// It reads the bound word, and looks for the next leaf of its root child.
    Look,
    /// It puts this leaf into its queue.
    Give(u32),
    /// The put of this leaf was refused: it reads the bound word, and scans the leaf or cuts it.
    Late(u32),
    /// It reads the bound word for a pop from the queue at this place of its round.
    Aim(u32),
    /// It pops from the queue at this place of its round, with this limit.
    Pop(u32, u64),
    /// It offers the distance of its k-th pair.
    Offer(Onward),
    /// It has ended, and takes no more turns.
    Done,
}
