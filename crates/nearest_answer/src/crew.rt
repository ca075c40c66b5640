//! What each part of a search by a team needs beside the search.
ghost use Rattle.std.specs.Prelude.{◌≡◌};

use std::alloc::Global;

/// Threads, memory, how many workers, and the gate that they pass.
#[derive(Drop)]
pub(crate) struct Crew<'a, T, G> {
    pub(crate) rt: &'a T,
    pub(crate) alloc: Global,
    pub(crate) workers: u32,
    pub(crate) gate: &'a G,
}

impl<'a, T, G> Crew<'a, T, G> {
    /// The same with so many workers.
    pub(crate) fn of(&self, workers: u32) -> Crew<'a, T, G>
        ensures { result.workers ≡ workers }
    {
        Crew {
            rt: self.rt,
            alloc: self.alloc,
            workers,
            gate: self.gate,
        }
    }
}
