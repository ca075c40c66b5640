//! How a run over an outside in memory ended.

use outside::MemSink;

/// How a run ended, with its text and what it wrote to the error stream.
#[derive(Drop)]
pub struct Ended<S> {
    /// The status that the run gave.
    pub status: S,
    /// Where the text was written.
    pub out: MemSink,
    /// Where the line was written.
    pub err: MemSink,
}
