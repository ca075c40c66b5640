//! A sink in memory, for tests: writes are taken in pieces, and the calls that a list names fail.
ghost use Rattle.std.specs.Prelude.{◌≡◌, ℕ, ◌+◌, ◌++◌, ◌<◌, ◌≤◌, [], length, take, IfOk, OnErr, IsOk, Some};
ghost use Rattle.std.specs.Vec.{vec_capacity};
ghost use Rattle.std.specs.Io.KnownBytes.{append_known};
ghost use Rattle.outside.specs.Count.{next_count, Rose};

use crate::counts::next;
use crate::{Failed, NoMemory, Sink};
use std::alloc::Global;

/// A sink in memory that takes `room` bytes, at most `cap` of them in one write. Writes are counted from 1;
/// those whose number is listed fail, and so does one that brings bytes where no room is left.
#[derive(Drop)]
pub struct MemSink {
    bytes: Vec<u8>,
    room: usize,
    cap: usize,
    fail_writes: Vec<u64>,
    writes: u64,
    faults: u64,
    ghost some_cap: { 1 ≤ cap },
    ghost in_room: { length bytes.items ≤ room },
    ghost reserved: { room ≤ vec_capacity bytes },
}

impl MemSink {
    ghost use Rattle.outside.specs.MemSink.{bytes_in, sure_in, IsFresh, HasLimits};

    /// Nothing is written, and nothing has failed.
    pub fn new(
        alloc: Global,
        room: usize,
        cap: usize,
        fail_writes: Vec<u64>,
    ) -> Result<MemSink, NoMemory>
        requires { 1 ≤ cap }
        ensures empty { IfOk result (λ sink. bytes_in sink ≡ []) }
        ensures fresh { IfOk result IsFresh }
        ensures limits { IfOk result (λ sink. HasLimits sink room cap fail_writes.items) }
        ensures sure { fail_writes.items ≡ [] → IfOk result (λ sink. sure_in sink ≡ room) }
    {
        Ok(MemSink {
            bytes: Vec::with_capacity(alloc, room)?,
            room,
            cap,
            fail_writes,
            writes: 0,
            faults: 0,
        })
    }

    /// All bytes written so far.
    pub fn written(&self) -> &[u8]
        ensures { result.now ≡ bytes_in self.now }
    {
        &self.bytes
    }
}

impl Sink for MemSink {
    ghost use Rattle.outside.specs.MemSink.{bytes_in, faults_in, sure_in, WritesAs};

    ghost written = { λ sink. Some (bytes_in sink) };

    ghost faults = { faults_in };

    ghost sure = { sure_in };

    fn write(&mut self, bytes: &[u8]) -> Result<usize, Failed>
        ensures exact { WritesAs self.old (length bytes.now) result self.new }
        ensures amount { IfOk result (λ m. (m ≤ length bytes.now) × (0 < length bytes.now → 0 < m)) }
        ensures appended { IfOk result (λ m. bytes_in self.new ≡ bytes_in self.old ++ take m bytes.now) }
        ensures failed { OnErr result (Rose (faults_in self.old) (faults_in self.new) × (bytes_in self.new ≡ bytes_in self.old)) }
        ensures counts { faults_in self.old ≤ faults_in self.new }
    {
        self.writes = next(self.writes);
        let room = self.room - self.bytes.len();
        let is_full = room == 0 && !bytes.is_empty();
        if is_full || self.fail_writes.contains(&self.writes) {
            self.faults = next(self.faults);
            return Err(Failed);
        }
        let count = self.cap.min(room.min(bytes.len()));
        self.bytes.extend_from_slice(&bytes[..count]).unwrap();
        Ok(count)
    }
}
