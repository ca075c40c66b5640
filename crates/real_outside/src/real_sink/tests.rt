//! Streams that take all, are full, or are interrupted: what is counted of each.

use super::RealSink;
use crate::claims::assert_same;
use outside::{Failed, Sink};
use std::fs::File;
use std::io::{self, ErrorKind, Write};
use std::test::Fail;

/// A writer that is interrupted once, then takes two bytes, and then none.
#[derive(Drop)]
struct Interrupted {
    calls: u8,
}

impl Write for Interrupted {
    fn write(&mut self, buf: &[u8]) -> io::Result<usize> {
        self.calls = self.calls.saturating_add(1);
        match self.calls {
            1 => Err(io::Error::from(ErrorKind::Interrupted)),
            2 => Ok(buf.len().min(2)),
            _ => Ok(0),
        }
    }

    fn flush(&mut self) -> io::Result<()> {
        Ok(())
    }
}

#[test]
fn writes_and_counts_refusals(rt: HostRuntime) -> Result<(), Fail> {
    let mut sink = RealSink::new(Vec::new(rt.alloc()));
    assert_same!(rt; sink.write(b"query 0\n"), Ok(8));
    assert_same!(rt; sink.write(b"1 0 4\n"), Ok(6));
    assert_same!(rt;
        (sink.writer.as_slice(), sink.faults),
        (b"query 0\n1 0 4\n".as_slice(), 0)
    );

    let device = File::options().write(true).open(&rt, "/dev/full")?;
    let mut full = RealSink::new(device);
    assert_same!(rt; full.write(b"query"), Err(Failed), "a full device");
    assert_same!(rt; full.faults, 1, "a full device");

    let mut slow = RealSink::new(Interrupted { calls: 0 });
    assert_same!(rt; slow.write(b"query"), Ok(2), "after an interruption");
    assert_same!(rt; slow.faults, 1, "an interruption");
    assert_same!(rt; slow.write(b"query"), Err(Failed), "nothing is taken");
    assert_same!(rt; slow.faults, 2, "nothing is taken");
    assert_same!(rt; slow.write(b""), Ok(0), "nothing is given");
    Ok(())
}
