//! The files of the operating system. What they hold is not known; each refusal is counted.
ghost use Rattle.std.specs.Prelude.{◌≡◌, ◌≤◌, length, take, IsSome, IfOk, OnOk, OnErr, IsErrOf, None};
ghost use Rattle.std.specs.Io.KnownBytes.{Consumes};
ghost use Rattle.outside.specs.declared.faults.OpenFault.TheVariants.{Absent, Failed as OpenFailed};
ghost use Rattle.outside.specs.Count.{Rose};
ghost use Rattle.real_outside.specs.Refusals.{open_fault_of, faults_after, misses_after};

use crate::counter::{count, count_error, failed};
use outside::{Failed, Files, OpenFault};
use std::fs::File;
use std::io::{ErrorKind, Read};
use std::rt::Files as System;

/// The files of a system, opened by name for reading. Both counters start at 0, rise at each refusal
/// of their kind and stop at their last value.
#[derive(Drop)]
pub struct RealFiles<R: System + Drop> {
    system: R,
    opened: Option<R::File>,
    faults: u64,
    misses: u64,
}

impl<R: System + Drop> RealFiles<R> {
    /// No file is open, and nothing was refused.
    pub fn new(system: R) -> RealFiles<R>
        ensures closed { result.opened ≡ None }
        ensures counts { (result.faults ≡ 0) × (result.misses ≡ 0) }
    {
        RealFiles {
            system,
            opened: None,
            faults: 0,
            misses: 0,
        }
    }

    /// Counts a refusal to open a file, and says what it is for the search.
    fn refuse(&mut self, kind: ErrorKind) -> OpenFault
        ensures fault { result ≡ open_fault_of kind }
        ensures faults { self.new.faults ≡ faults_after result self.old.faults }
        ensures misses { self.new.misses ≡ misses_after result self.old.misses }
        ensures counts { (self.old.faults ≤ self.new.faults) × (self.old.misses ≤ self.new.misses) }
        ensures opened { self.new.opened ≡ self.old.opened }
    {
        match kind {
            ErrorKind::NotFound => {
                count(&mut self.misses);
                OpenFault::Absent
            }
            ErrorKind::OutOfMemory => OpenFault::NoMemory,
            _ => {
                count(&mut self.faults);
                OpenFault::Failed
            }
        }
    }
}

impl<R: System + Drop> Files for RealFiles<R> {
    ghost held = { λ _. None };

    ghost left = { λ _. None };

    ghost at = { λ _. None };

    ghost blamed = { λ _. None };

    ghost faults = { λ files. files.faults };

    ghost misses = { λ files. files.misses };

    ghost reliable = { λ _. ⊥ };

    fn open_file(&mut self, name: &str) -> Result<(), OpenFault>
        ensures opened { OnOk result (IsSome self.new.opened) }
        ensures closed { OnErr result (self.new.opened ≡ None) }
        ensures absent { IsErrOf result Absent → Rose self.old.misses self.new.misses }
        ensures failed { IsErrOf result OpenFailed → Rose self.old.faults self.new.faults }
        ensures counts { (self.old.faults ≤ self.new.faults) × (self.old.misses ≤ self.new.misses) }
    {
        self.opened = None;
        match File::open(&self.system, name) {
            Ok(file) => {
                self.opened = Some(file);
                Ok(())
            }
            Err(error) => Err(self.refuse(error.kind())),
        }
    }

    fn read(&mut self, buf: &mut [u8]) -> Result<usize, Failed>
        ensures amount { IfOk result (λ m. m ≤ length buf.old) }
        ensures none_open { self.old.opened ≡ None → result ≡ Ok 0 }
        ensures stays_open { OnOk result (IsSome self.old.opened → IsSome self.new.opened) }
        ensures closed { OnErr result (self.new.opened ≡ None) }
        ensures failed { OnErr result (Rose self.old.faults self.new.faults) }
        ensures counts { (self.old.faults ≤ self.new.faults) × (self.new.misses ≡ self.old.misses) }
    {
        let Some(file) = &mut self.opened else {
            return Ok(0);
        };
        let result = read_on(file, buf, &mut self.faults);
        if result.is_err() {
            self.opened = None;
        }
        result
    }
}

/// One read, made again where it was interrupted. Each error is counted as a fault.
fn read_on<F: Read>(file: &mut F, buf: &mut [u8], faults: &mut u64) -> Result<usize, Failed>
    ensures amount { IfOk result (λ m. m ≤ length buf.old) }
    ensures taken { IfOk result (λ m. Consumes (F.remaining file.old) (F.remaining file.new) (take m buf.new)) }
    ensures failed { OnErr result (Rose faults.old faults.new) }
    ensures counts { faults.old ≤ faults.new }
{
    for _ in 0..u64::MAX {
        match file.read(buf) {
            Ok(count) => return Ok(count),
            Err(error) => count_error(&error, faults)?,
        }
    }
    Err(failed(faults))
}

#[cfg(test)]
mod tests;
