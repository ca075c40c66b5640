//! A stream of the operating system to write to. What was written is not known; each refusal is counted.
ghost use Rattle.std.specs.Prelude.{◌≡◌, ◌<◌, ◌≤◌, length, take, IfOk, OnErr, None};
ghost use Rattle.std.specs.Io.KnownBytes.{Appends, Keeps};
ghost use Rattle.outside.specs.Count.{Rose};

use crate::counter::{count_error, failed};
use outside::{Failed, Sink};
use std::io::Write;

/// A writer of std as a sink. The counter starts at 0, rises at each refusal and stops at its last value.
#[derive(Drop)]
pub struct RealSink<W: Write + Drop> {
    writer: W,
    faults: u64,
}

impl<W: Write + Drop> RealSink<W> {
    /// Nothing was refused.
    pub fn new(writer: W) -> RealSink<W>
        ensures writer { result.writer ≡ writer }
        ensures counts { result.faults ≡ 0 }
    {
        RealSink { writer, faults: 0 }
    }
}

impl<W: Write + Drop> Sink for RealSink<W> {
    ghost written = { λ _. None };

    ghost faults = { λ sink. sink.faults };

    ghost sure = { λ _. 0 };

    fn write(&mut self, bytes: &[u8]) -> Result<usize, Failed> {
        write_on(&mut self.writer, bytes, &mut self.faults)
    }
}

/// One write, made again where it was interrupted. Each error is counted as a fault,
/// and so is a write that takes none of the bytes.
fn write_on<W: Write>(writer: &mut W, bytes: &[u8], faults: &mut u64) -> Result<usize, Failed>
    ensures amount { IfOk result (λ m. (m ≤ length bytes.now) × (0 < length bytes.now → 0 < m)) }
    ensures appended { IfOk result (λ m. Appends (W.contents writer.old) (W.contents writer.new) (take m bytes.now)) }
    ensures failed { OnErr result (Rose faults.old faults.new) }
    ensures kept { OnErr result (Keeps (W.contents writer.old) (W.contents writer.new)) }
    ensures counts { faults.old ≤ faults.new }
{
    for _ in 0..u64::MAX {
        match writer.write(bytes) {
            Ok(0) if !bytes.is_empty() => break,
            Ok(count) => return Ok(count),
            Err(error) => count_error(&error, faults)?,
        }
    }
    Err(failed(faults))
}

#[cfg(test)]
mod tests;
