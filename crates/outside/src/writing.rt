//! Writing a whole text to a sink that may take it in pieces.
ghost use Rattle.std.specs.Prelude.{◌≡◌, ◌+◌, ◌≤◌, length, OnOk, OnErr, IsOk};
ghost use Rattle.std.specs.Io.KnownBytes.{append_known};
ghost use Rattle.outside.specs.Count.{Rose};
ghost use Rattle.outside.specs.Sink.{AppendsPrefix};

use crate::{Failed, Sink};

/// Appends all the bytes. Each write is handed all that is left of them; where nothing is left, none is made.
/// It takes no memory.
pub fn write_whole<S: Sink>(sink: &mut S, bytes: &[u8]) -> Result<(), Failed>
    ensures ok { OnOk result (S.written sink.new ≡ append_known (S.written sink.old) bytes.now) }
    ensures prefix { OnErr result (AppendsPrefix (S.written sink.old) bytes.now (S.written sink.new)) }
    ensures failed { OnErr result (Rose (S.faults sink.old) (S.faults sink.new)) }
    ensures counts { S.faults sink.old ≤ S.faults sink.new }
    ensures sure { length bytes.now ≤ S.sure sink.old → IsOk result × (S.faults sink.new ≡ S.faults sink.old) }
    ensures spent { OnOk result (S.sure sink.old ≤ S.sure sink.new + length bytes.now) }
{
    let mut done = 0;
    while done < bytes.len() {
        let count = sink.write(&bytes[done..])?;
        done += count;
    }
    Ok(())
}
