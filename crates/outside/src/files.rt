//! Files by name, one of them open at a time. What they hold is known of files in memory alone; that a call failed is always known.
ghost use Rattle.std.specs.Prelude.{◌≡◌, ◌≢◌, ℕ, ◌<◌, ◌≤◌, List, length, take, IsSome, IfSome, IfOk, OnOk, OnErr, IsOk, IsErrOf, Option};
ghost use Rattle.std.specs.Io.KnownBytes.{prepend_known, IsAtEnd};
ghost use Rattle.outside.specs.declared.faults.OpenFault.TheVariants.{Absent, Failed as OpenFailed};
ghost use Rattle.outside.specs.Count.{Rose};
ghost use Rattle.outside.specs.Files.{Held, Opens, IsClosed, Blames, BlamesOpen};

use crate::{Failed, OpenFault};

/// Files that are opened by name and read from the front, one at a time.
pub trait Files {
    /// The bytes held under each name, where known. They never change.
    ghost held: { Self → Option Held };

    /// What is left of the open file, where known; with no file open, nothing.
    ghost left: { Self → Option (List ℕ) };

    /// The name of the open file, where known and where one is open.
    ghost at: { Self → Option (List ℕ) };

    /// The name, where known, of the file whose opening or reading last answered Failed.
    ghost blamed: { Self → Option (List ℕ) };

    /// How often the outside failed.
    ghost faults: { Self → ℕ };

    /// How often a name was not found.
    ghost misses: { Self → ℕ };

    /// From here on no call answers Failed.
    ghost reliable: { Self → Type 0 };

    /// Opens the named file at its front, in place of the one that was open. After a refusal no file is open.
    fn open_file(&mut self, name: &str) -> Result<(), OpenFault>
        ensures opened { OnOk result (Opens (held self.old) name.now (at self.new) (left self.new)) }
        ensures absent { IsErrOf result Absent → Rose (misses self.old) (misses self.new)
            × IfSome (held self.old) (λ held. held name.now ≡ None) }
        ensures failed { IsErrOf result OpenFailed → Rose (faults self.old) (faults self.new) }
        ensures blame { BlamesOpen result name.now (blamed self.old) (blamed self.new) }
        ensures closed { OnErr result (IsClosed (held self.new) (at self.new) (left self.new)) }
        ensures kept { held self.new ≡ held self.old }
        ensures counts { (faults self.old ≤ faults self.new) × (misses self.old ≤ misses self.new) }
        ensures reliable { reliable self.old → (result ≢ Err OpenFailed)
            × (faults self.new ≡ faults self.old) × reliable self.new };

    /// Reads the next bytes of the open file into the front of the buffer, and says how many.
    /// At least one, where the buffer is not empty and something is left. With no file open it answers 0.
    fn read(&mut self, buf: &mut [u8]) -> Result<usize, Failed>
        ensures taken { IfOk result (λ m. left self.old ≡ prepend_known (take m buf.new) (left self.new)) }
        ensures amount { IfOk result (λ m. (m ≤ length buf.old)
            × (m ≡ 0 → 0 < length buf.old → IsAtEnd (left self.old))) }
        ensures stays_open { OnOk result ((at self.new ≡ at self.old) × (blamed self.new ≡ blamed self.old)) }
        ensures none_open { IsSome (held self.old) → at self.old ≡ None → result ≡ Ok 0 }
        ensures failed { OnErr result (Rose (faults self.old) (faults self.new)
            × IsClosed (held self.new) (at self.new) (left self.new)
            × Blames (at self.old) (blamed self.new)) }
        ensures kept { held self.new ≡ held self.old }
        ensures counts { (faults self.old ≤ faults self.new) × (misses self.old ≤ misses self.new) }
        ensures reliable { reliable self.old → IsOk result
            × (faults self.new ≡ faults self.old) × reliable self.new };
}
