//! What work is done with: threads, memory, and the gate before each turn of a worker.

use std::alloc::Global;

/// What work is done with.
#[derive(Drop)]
pub struct Crew<'a, T, G> {
    /// The threads.
    pub rt: &'a T,
    /// The memory.
    pub alloc: Global,
    /// The gate before each turn of a worker.
    pub gate: &'a G,
}
