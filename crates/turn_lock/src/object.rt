//! What a lock guards: an object that answers calls, and what it means that it answers them.
ghost use Rattle.std.specs.Prelude.{◌≡◌, ℕ};

use std::snapshot::Snapshot;

/// An object that answers calls, one at a time.
pub trait Object {
    /// What a caller asks.
    type Call;

    /// What the object answers.
    type Reply;

    // The meaning of a call by a caller at a state: the state after it, and the reply.
    ghost next: { Self → ℕ → Self.Call → Self × Self.Reply };

    /// Makes the call of the caller with this number.
    fn apply(&mut self, caller: u32, call: Self::Call) -> Self::Reply
        ensures { (self.new, result) ≡ next self.old caller call };
}

/// A call that was made, by whom, and its reply. Histories are lists of these; the code keeps none.
pub struct Entry<C, R> {
    /// The number of the pass that made the call.
    pub caller: u32,
    /// The call.
    pub call: C,
    /// The reply that was given.
    pub reply: R,
}

/// The call that was made last, for the proofs alone. It has no bytes.
pub struct Last<C, R> {
    /// The call.
    pub call: Snapshot<C>,
    /// Its reply.
    pub reply: Snapshot<R>,
}

impl<C, R> Drop for Last<C, R> {
    fn drop(self) {
        let Self { call: _, reply: _ } = self;
    }
}

/// What lies in the lock's one slot.
#[derive(Drop)]
pub struct Held<O, C, R> {
    /// The object that the lock guards.
    pub object: O,
    /// What was asked of it last, once something was.
    pub last: Option<Last<C, R>>,
}
