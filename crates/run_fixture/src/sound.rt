//! An outside in memory, which is sound or fails at one call of a kind.

use outside::{MemFiles, MemSink, NoMemory};
use std::alloc::Global;

/// The outside of a run: how many bytes a read and a write move at most, how many are taken in all, and which open, read,
/// write and write of the line fails (0: none).
#[derive(Clone, Copy, Debug)]
pub struct Outside {
    /// How many bytes a read and a write move at most.
    pub piece: usize,
    /// How many bytes of the text are taken in all.
    pub room: usize,
    /// Which open fails.
    pub open: u64,
    /// Which read fails.
    pub read: u64,
    /// Which write fails.
    pub write: u64,
    /// Which write of the line fails.
    pub tell: u64,
}

/// An outside that never fails, with pieces of 16 bytes.
pub const SOUND: Outside = Outside {
    piece: 16,
    room: 2000,
    open: 0,
    read: 0,
    write: 0,
    tell: 0,
};

impl Outside {
    /// An outside that never fails, with pieces of `piece` bytes, at least 1.
    pub fn sound(piece: usize) -> Outside {
        Outside { piece, ..SOUND }
    }

    /// Files of this outside; none is held yet.
    pub fn files(&self, alloc: Global) -> Result<MemFiles, NoMemory> {
        let fail_opens = [self.open].to_vec(alloc)?;
        let fail_reads = [self.read].to_vec(alloc)?;
        let piece = self.piece.max(1);
        Ok(MemFiles::new(alloc, piece, fail_opens, fail_reads))
    }

    /// The sinks of this outside for the text and for the line, with nothing written.
    pub fn sinks(&self, alloc: Global) -> Result<(MemSink, MemSink), NoMemory> {
        let piece = self.piece.max(1);
        let out = MemSink::new(alloc, self.room, piece, [self.write].to_vec(alloc)?)?;
        let err = MemSink::new(alloc, 2000, piece, [self.tell].to_vec(alloc)?)?;
        Ok((out, err))
    }
}
