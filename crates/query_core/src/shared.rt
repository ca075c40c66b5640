//! What the workers share, as one of them sees it: root children to claim, the bound word, and the queues.
ghost use Rattle.std.specs.Prelude.{◌≡◌, ℕ, ◌<◌, ◌≤◌, IfSome};

use series_core::{Entry, PopReply, PutReply};

/// What the workers of a search share, as one of them sees it. Each call is one step.
pub trait Shared {
    ghost use Rattle.search_machine.specs.declared.calls.Call.{Call};
    ghost use Rattle.search_machine.specs.declared.calls.Reply.{Reply};

    /// No limit falls below it.
    ghost floor: { Self → ℕ };

    /// How many root children there are.
    ghost roots: { Self → ℕ };

    /// What a call with its reply made of what is held.
    ghost did: { Self → Call → Reply → Self → Type 0 };

    /// Claims the next root child. None where none is left.
    fn claim(&mut self) -> Option<u64>
        ensures did { did self.old Call.Claim (Reply.Claimed result) self.new }
        ensures bound { IfSome result (λ c. c < roots self.old) }
        ensures floor { floor self.new ≡ floor self.old }
        ensures roots { roots self.new ≡ roots self.old };

    /// The bound word.
    fn read(&mut self) -> u64
        ensures did { did self.old Call.Read (Reply.Seen result) self.new }
        ensures low { floor self.old ≤ result }
        ensures floor { floor self.new ≡ floor self.old }
        ensures roots { roots self.new ≡ roots self.old };

    /// Makes the bound word no more than `v`, and answers what it was.
    fn offer(&mut self, v: u64) -> u64
        requires { floor self.old ≤ v }
        ensures did { did self.old (Call.Offer v) (Reply.Offered result) self.new }
        ensures low { floor self.old ≤ result }
        ensures floor { floor self.new ≡ floor self.old }
        ensures roots { roots self.new ≡ roots self.old };

    /// Puts an entry into a queue.
    fn put(&mut self, queue: u32, entry: Entry) -> PutReply
        ensures did { did self.old (Call.Put queue entry) (Reply.PutTold result) self.new }
        ensures floor { floor self.new ≡ floor self.old }
        ensures roots { roots self.new ≡ roots self.old };

    /// Takes the least entry of a queue, or shuts the queue with this limit.
    fn pop(&mut self, queue: u32, limit: u64) -> PopReply
        ensures did { did self.old (Call.Pop queue limit) (Reply.PopTold result) self.new }
        ensures floor { floor self.new ≡ floor self.old }
        ensures roots { roots self.new ≡ roots self.old };
}
