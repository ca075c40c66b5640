//! A slow queue for the tests: a list that is sorted after each put, and no heap.
use leaf_queues::{Call, Reply};
use series_core::{Entry, PopReply, PutReply};
use std::alloc::{AllocError, Global};

/// The waiting entries in ascending order.
#[derive(Drop)]
pub struct SortedList {
    waiting: Vec<Entry>,
    placed: u32,
    capacity: u32,
    kept: Option<u64>,
}

impl SortedList {
    pub fn new(alloc: Global, capacity: u32) -> SortedList {
        SortedList {
            waiting: Vec::new(alloc),
            placed: 0,
            capacity,
            kept: None,
        }
    }

    pub fn waiting(&self) -> &[Entry] {
        self.waiting.as_slice()
    }

    pub fn answer(&mut self, call: Call) -> Result<Reply, AllocError> {
        match call {
            Call::Put(entry) => self.put(entry).map(Reply::Put),
            Call::Pop(limit) => Ok(Reply::Pop(self.pop(limit))),
        }
    }

    fn put(&mut self, entry: Entry) -> Result<PutReply, AllocError> {
        if let Some(kept) = self.kept {
            return Ok(PutReply::Shut(kept));
        }
        if self.placed >= self.capacity {
            return Ok(PutReply::Filled(self.placed));
        }
        self.waiting.push(entry)?;
        self.waiting.sort_unstable();
        self.placed += 1;
        Ok(PutReply::Placed)
    }

    fn pop(&mut self, limit: u64) -> PopReply {
        if let Some(kept) = self.kept {
            return PopReply::Closed(kept);
        }
        if self.waiting.is_empty() || self.waiting[0].bound > limit {
            self.kept = Some(limit);
            return PopReply::Closed(limit);
        }
        PopReply::Leaf(self.waiting.remove(0))
    }
}
