//! Files in memory, for tests: reads come in pieces, and the calls that a list names fail.
ghost use Rattle.std.specs.Prelude.{◌≡◌, ◌≢◌, ℕ, ◌<◌, ◌≤◌, List, [], ◌++◌, length, take, IsSome, IfSome, IfOk, OnOk, OnErr, IsOk, IsErrOf, Some, None, if◌then◌else◌};
ghost use Rattle.std.specs.Option.{ForSome};
ghost use Rattle.std.specs.Io.KnownBytes.{prepend_known, IsAtEnd};
ghost use Rattle.std.specs.Str.{bytes_eq};
ghost use Rattle.outside.specs.declared.faults.OpenFault.TheVariants.{Absent, Failed as OpenFailed};
ghost use Rattle.outside.specs.Count.{next_count, Rose};
ghost use Rattle.outside.specs.Files.{Opens, Blames, BlamesOpen};
ghost use Rattle.outside.specs.HeldFiles.{IsAmongHeld};

use crate::counts::next;
use crate::held_files::{HeldFile, OpenFile, place_of, put, take_piece};
use crate::{Failed, Files, NoMemory, OpenFault};
use std::alloc::Global;

/// Files in memory. A read gives at most `cap` bytes. Opens and reads are counted apart, from 1;
/// those whose number is listed fail.
#[derive(Drop)]
pub struct MemFiles {
    alloc: Global,
    files: Vec<HeldFile>,
    opened: Option<OpenFile>,
    blamed: Option<usize>,
    cap: usize,
    fail_opens: Vec<u64>,
    fail_reads: Vec<u64>,
    opens: u64,
    reads: u64,
    faults: u64,
    misses: u64,
    ghost some_cap: { 1 ≤ cap },
    ghost among_held: { ForSome opened (IsAmongHeld files.items) },
    ghost blamed_held: { ForSome blamed (λ place. place < length files.items) },
}

impl MemFiles {
    ghost use Rattle.outside.specs.MemFiles.{held_in, rest_in, name_in, FailsNever, IsFresh, HasLimits, KeepsCalls, IsUnchanged};

    /// No file is held, and nothing has failed. It takes no memory.
    pub fn new(alloc: Global, cap: usize, fail_opens: Vec<u64>, fail_reads: Vec<u64>) -> MemFiles
        requires { 1 ≤ cap }
        ensures held { (name : List ℕ) → held_in result name ≡ None }
        ensures closed { (name_in result ≡ None) × (rest_in result ≡ []) }
        ensures fresh { IsFresh result }
        ensures limits { HasLimits result cap fail_opens.items fail_reads.items }
        ensures reliable { fail_opens.items ≡ [] → fail_reads.items ≡ [] → FailsNever result }
    {
        MemFiles {
            alloc,
            files: Vec::new(alloc),
            opened: None,
            blamed: None,
            cap,
            fail_opens,
            fail_reads,
            opens: 0,
            reads: 0,
            faults: 0,
            misses: 0,
        }
    }

    /// Holds these bytes under the name, in place of those that were held under it; then no file is open.
    /// A refusal changes nothing.
    pub fn hold(&mut self, name: &str, bytes: &[u8]) -> Result<(), NoMemory>
        ensures held { OnOk result ((asked : List ℕ) → held_in self.new asked
            ≡ (if bytes_eq name.now asked then Some bytes.now else held_in self.old asked)) }
        ensures closed { OnOk result ((name_in self.new ≡ None) × (rest_in self.new ≡ [])) }
        ensures others { OnOk result (KeepsCalls self.old self.new) }
        ensures err { OnErr result (IsUnchanged self.old self.new) }
    {
        let copy = bytes.to_vec(self.alloc)?;
        put(self.alloc, &mut self.files, name, copy)?;
        self.opened = None;
        Ok(())
    }
}

impl Files for MemFiles {
    ghost use Rattle.outside.specs.MemFiles.{held_in, rest_in, name_in, blamed_in, faults_in, misses_in, FailsNever, OpensAs, ReadsAs};

    ghost held = { λ files. Some (held_in files) };

    ghost left = { λ files. Some (rest_in files) };

    ghost at = { name_in };

    ghost blamed = { blamed_in };

    ghost faults = { faults_in };

    ghost misses = { misses_in };

    ghost reliable = { FailsNever };

    fn open_file(&mut self, name: &str) -> Result<(), OpenFault>
        ensures exact { OpensAs self.old name.now result self.new }
        ensures opened { OnOk result (Opens (Some (held_in self.old)) name.now (name_in self.new) (Some (rest_in self.new))) }
        ensures blame { BlamesOpen result name.now (blamed_in self.old) (blamed_in self.new) }
        ensures closed { OnErr result ((name_in self.new ≡ None) × (rest_in self.new ≡ [])) }
        ensures counts { (faults_in self.old ≤ faults_in self.new) × (misses_in self.old ≤ misses_in self.new) }
    {
        self.opened = None;
        self.opens = next(self.opens);
        let place = place_of(&self.files, name);
        if self.fail_opens.contains(&self.opens) {
            self.faults = next(self.faults);
            self.blamed = place;
            return Err(OpenFault::Failed);
        }
        match place {
            Some(place) => {
                self.opened = Some(OpenFile { place, taken: 0 });
                Ok(())
            }
            None => {
                self.misses = next(self.misses);
                Err(OpenFault::Absent)
            }
        }
    }

    fn read(&mut self, buf: &mut [u8]) -> Result<usize, Failed>
        ensures exact { ReadsAs self.old (length buf.old) result self.new }
        ensures taken { IfOk result (λ m. rest_in self.old ≡ take m buf.new ++ rest_in self.new) }
        ensures stays_open { OnOk result ((name_in self.new ≡ name_in self.old) × (blamed_in self.new ≡ blamed_in self.old)) }
        ensures none_open { name_in self.old ≡ None → result ≡ Ok 0 }
        ensures closed { OnErr result ((name_in self.new ≡ None) × (rest_in self.new ≡ [])) }
        ensures blame { OnErr result (Blames (name_in self.old) (blamed_in self.new)) }
        ensures counts { (faults_in self.old ≤ faults_in self.new) × (misses_in self.old ≤ misses_in self.new) }
    {
        let Some(file) = self.opened else {
            return Ok(0);
        };
        self.reads = next(self.reads);
        if self.fail_reads.contains(&self.reads) {
            self.faults = next(self.faults);
            self.blamed = Some(file.place);
            self.opened = None;
            return Err(Failed);
        }
        let count = take_piece(&self.files, file, self.cap, buf);
        self.opened = Some(OpenFile {
            place: file.place,
            taken: file.taken + count,
        });
        Ok(count)
    }
}
