//! How a collection begins: its lock with one pass for the writer and one for each reader.
ghost use Rattle.std.specs.Prelude.{◌≡◌, ◌+◌, ◌<◌, ◌≤◌, [], ◌∷◌, IfOk, length, vec_len, vec_capacity};
ghost use Rattle.turn_lock.specs.Passes.{AreNewPasses};
ghost use Rattle.live_collection.specs.Sides.{AreAllReaders, AreNewReaders, IsWriterOf, writer_made, writer_saw};

use crate::live::{LiveCollection, Reader, Writer};
use crate::object::LiveObject;
use outside::NoMemory;
use std::alloc::Global;
use std::collections::LinkedList;
use subtree_build::Settings;
use turn_lock::{LockError, TurnLock, TurnPass};

impl LiveCollection {
    /// A collection in which no batch stands, with its writer and its readers, numbered from 1 in their order.
    pub fn begin(
        alloc: Global,
        settings: Settings,
        readers: u32,
    ) -> Result<(LiveCollection, Writer, Vec<Reader>), NoMemory>
        requires readers { (1 ≤ readers) × (readers ≤ 63) }
        requires leaf_size { (1 ≤ settings.leaf_size) × (settings.leaf_size ≤ 65535) }
        ensures settings { IfOk result (λ r. r.0.settings ≡ settings) }
        ensures count { IfOk result (λ r. (r.0.readers ≡ readers) × (length r.2.items ≡ readers)) }
        ensures writer { IfOk result (λ r. IsWriterOf r.0 r.1 × (writer_saw r.1 ≡ []) × (writer_made r.1 ≡ [])) }
        ensures readers { IfOk result (λ r. AreNewReaders r.0 r.2.items) }
        ensures all { IfOk result (λ r. AreAllReaders r.0 r.2.items) }
    {
        let object = LiveObject::new(alloc, settings.layout.cuts.length(), readers)?;
        let mut sides = Vec::with_capacity(alloc, readers as usize)?;
        let room = Vec::with_capacity(alloc, readers as usize + 1)?;
        let (lock, mut passes) = match TurnLock::begin(alloc, object, readers + 1) {
            Ok(begun) => begun,
            Err(LockError::NoMemory(_)) => return Err(NoMemory),
        };
        let live = LiveCollection {
            lock,
            settings,
            readers,
        };
        live.deal(alloc, &mut passes, &mut sides);
        let Some(pass) = passes.pop() else {
            unreachable!()
        };
        Ok((live, Writer { pass, room }, sides))
    }

    // The passes become readers, the last one first, until the writer's alone is left.
    fn deal(&self, alloc: Global, passes: &mut Vec<TurnPass<LiveObject>>, sides: &mut Vec<Reader>)
        requires passes { AreNewPasses self.now.lock passes.old.items }
        requires count { length passes.old.items ≡ self.now.readers + 1 }
        requires sides { (sides.old.items ≡ []) × (self.now.readers ≤ vec_capacity sides.old) }
        ensures passes { AreNewPasses self.now.lock passes.new.items }
        ensures one { length passes.new.items ≡ 1 }
        ensures count { length sides.new.items ≡ self.now.readers }
        ensures sides { AreNewReaders self.now sides.new.items }
        ensures all { AreAllReaders self.now sides.new.items }
    {
        for _ in 0..self.readers {
            let Some(pass) = passes.pop() else {
                unreachable!()
            };
            let reader = Reader {
                pass,
                parts: LinkedList::new(alloc),
            };
            put_first(sides, reader);
        }
    }
}

// Puts a reader before the others, in the room that was taken.
fn put_first(sides: &mut Vec<Reader>, reader: Reader)
    requires { vec_len sides.old < vec_capacity sides.old }
    ensures items { sides.new.items ≡ reader ∷ sides.old.items }
    ensures capacity { vec_capacity sides.old ≤ vec_capacity sides.new }
{
    let _ = sides.insert(0, reader);
}
