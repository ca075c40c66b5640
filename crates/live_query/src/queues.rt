//! The queues of the drain part, as one worker pops from them: sealed runs, or queues under locks.
use series_core::PopReply;

/// What a worker has of the queues of the drain part.
pub trait Queues {
    ghost use Rattle.std.specs.Prelude.{ℕ};
    ghost use Rattle.series_core.specs.declared.queue_words.PopReply.{PopReply as Answer};

    /// What a pop from a queue with a limit, and its reply, made of it.
    ghost pops: { Self → ℕ → ℕ → Answer → Self → Type 0 };

    /// Takes the least entry of a queue, or shuts the queue with this limit. A pop that names no queue takes no step.
    fn pop(&mut self, queue: u32, limit: u64) -> PopReply
        ensures pops { pops self.old queue limit result self.new };
}
