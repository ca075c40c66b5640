//! Plain queues: what the pops of a run are to answer, from lists that are sorted once.
ghost use Rattle.std.specs.Prelude.{◌≡◌, ◌<◌, IfOk, length, vec_len};
ghost use Rattle.sealed_runs.specs.Entries.{LeavesDiffer};

use outside::NoMemory;
use sealed_runs::RunsClosed;
use series_core::{Entry, PopReply};
use std::alloc::Global;

/// What is left of one queue, the greatest first, what was taken, and the least limit that closed it.
#[derive(Drop)]
pub(crate) struct Plain {
    left: Vec<Entry>,
    taken: Vec<Entry>,
    kept: Option<u64>,
}

impl Plain {
    pub(crate) fn pop(&mut self, limit: u64) -> Result<PopReply, NoMemory> {
        if let Some(entry) = self.left.pop() {
            if entry.bound <= limit {
                self.taken.push(entry)?;
                return Ok(PopReply::Leaf(entry));
            }
        }
        self.kept = match self.kept {
            Some(kept) => Some(kept.min(limit)),
            None => Some(limit),
        };
        Ok(PopReply::Closed(limit))
    }

    /// Pops until the queue closes.
    pub(crate) fn pop_all(&mut self, limit: u64) -> Result<(), NoMemory> {
        for _turn in 0..=self.left.len() {
            let PopReply::Leaf(_) = self.pop(limit)? else {
                break;
            };
        }
        Ok(())
    }

    /// Whether the closed run m has just what was taken here, and keeps the limit that is kept here.
    pub(crate) fn is_run(&self, closed: &RunsClosed, m: u32) -> bool
        requires { m < length closed.now }
    {
        closed.taken(m) == self.taken.as_slice() && closed.kept(m) == self.kept
    }
}

/// The plain queue of those of the entries whose leaf leaves m.
pub(crate) fn plain_queue(
    alloc: Global,
    entries: &[Entry],
    queues: u32,
    m: u32,
) -> Result<Plain, NoMemory>
    requires { 0 < queues }
{
    let mut left = Vec::new(alloc);
    for entry in entries {
        if entry.leaf % queues == m {
            left.push(*entry)?;
        }
    }
    left.sort_unstable();
    left.reverse();
    let taken = Vec::new(alloc);
    Ok(Plain {
        left,
        taken,
        kept: None,
    })
}

/// One plain queue for each of the queues over these entries.
pub(crate) fn plain_queues(
    alloc: Global,
    entries: &[Entry],
    queues: u32,
) -> Result<Vec<Plain>, NoMemory>
    requires { 0 < queues }
    ensures { IfOk result (λ plain. vec_len plain ≡ queues) }
{
    let mut plain = Vec::with_capacity(alloc, queues as usize)?;
    for m in 0..queues {
        plain.push_reserved(plain_queue(alloc, entries, queues, m)?);
    }
    Ok(plain)
}

/// Entries of the leaves below `count`, with bounds that jump about below 1009.
pub(crate) fn scattered(alloc: Global, count: u32) -> Result<Vec<Entry>, NoMemory>
    ensures { IfOk result (λ entries. LeavesDiffer entries.items) }
{
    let mut entries = Vec::with_capacity(alloc, count as usize)?;
    for leaf in 0..count {
        let bound = u64::from(leaf.wrapping_mul(7919) % 1009);
        entries.push(Entry { bound, leaf })?;
    }
    Ok(entries)
}
