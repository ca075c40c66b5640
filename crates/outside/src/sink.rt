//! Where text is written. What was written is known of a sink in memory alone; that a write failed is always known.
ghost use Rattle.std.specs.Prelude.{◌≡◌, ℕ, ◌+◌, ◌<◌, ◌≤◌, List, length, take, IfOk, OnErr, IsOk, Option};
ghost use Rattle.std.specs.Io.KnownBytes.{append_known};
ghost use Rattle.outside.specs.Count.{Rose};

use crate::Failed;

/// Where bytes are written, one after another.
pub trait Sink {
    /// All bytes written so far, where known.
    ghost written: { Self → Option (List ℕ) };

    /// How often the outside failed.
    ghost faults: { Self → ℕ };

    /// How many more bytes are taken for sure, with no fault, in whatever pieces they come.
    ghost sure: { Self → ℕ };

    /// Appends the first of these bytes, and says how many: at least one, where there are any.
    fn write(&mut self, bytes: &[u8]) -> Result<usize, Failed>
        ensures amount { IfOk result (λ m. (m ≤ length bytes.now) × (0 < length bytes.now → 0 < m)) }
        ensures appended { IfOk result (λ m. written self.new ≡ append_known (written self.old) (take m bytes.now)) }
        ensures failed { OnErr result (Rose (faults self.old) (faults self.new) × (written self.new ≡ written self.old)) }
        ensures counts { faults self.old ≤ faults self.new }
        ensures sure { 0 < sure self.old → IsOk result × (faults self.new ≡ faults self.old) }
        ensures spent { IfOk result (λ m. sure self.old ≤ sure self.new + m) };
}
