//! The gate that a worker passes before each of its turns.

/// Where a worker stands before a turn. A test holds it there; the program lets it through.
pub trait Gate {
    /// Returns once the worker may take its turn. Turns are counted from 0.
    fn pass(&self, worker: u32, turn: u64);
}

/// The gate of the program: it does nothing.
#[derive(Clone, Copy, Debug)]
pub struct NoGate;

impl Gate for NoGate {
    fn pass(&self, _worker: u32, _turn: u64) {}
}
