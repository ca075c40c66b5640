//! Files that are there, absent or refused, and a reader that is interrupted: what is counted of each.

use super::{RealFiles, read_on};
use crate::claims::assert_same;
use outside::{Failed, Files, OpenFault};
use std::io::{self, ErrorKind, Read};
use std::test::Fail;
use std::{env, fs, process};

/// A reader that is interrupted once, and then has filled the buffer.
#[derive(Drop)]
struct Interrupted {
    is_next: bool,
}

impl Read for Interrupted {
    fn read(&mut self, buf: &mut [u8]) -> io::Result<usize> {
        if self.is_next {
            self.is_next = false;
            return Err(io::Error::from(ErrorKind::Interrupted));
        }
        Ok(buf.len())
    }
}

#[test]
fn opens_and_reads_and_counts_refusals(rt: HostRuntime) -> Result<(), Fail> {
    let name = format!(in rt.alloc(); "real-outside-{}", process::id(rt.process()))?;
    let path = env::temp_dir(&rt)?.join(rt.alloc(), name.as_str())?;
    fs::write(&rt, path.as_path(), b"query 0\n".as_slice())?;
    let mut files = RealFiles::new(&rt);
    let mut buf = [0u8; 5];
    assert_same!(rt; files.read(&mut buf), Ok(0), "no file is open");
    let opened = files.open_file(path.as_str());
    fs::remove_file(&rt, path.as_path())?;
    assert_same!(rt; opened, Ok(()));
    assert_same!(rt; (files.read(&mut buf), buf), (Ok(5), *b"query"));
    assert_same!(rt; (files.read(&mut buf), buf), (Ok(3), *b" 0\nry"));
    assert_same!(rt; (files.read(&mut buf), buf), (Ok(0), *b" 0\nry"));
    assert_same!(rt; files.open_file(path.as_str()), Err(OpenFault::Absent));
    assert_same!(rt; (files.misses, files.faults), (1, 0), "an absent file");
    assert_same!(rt; files.open_file("a\0b"), Err(OpenFault::Failed));
    assert_same!(rt;
        (files.misses, files.faults),
        (1, 1),
        "a name that the system refuses"
    );
    assert_same!(rt; files.open_file("/"), Ok(()));
    assert_same!(rt; files.read(&mut buf), Err(Failed), "a directory");
    assert_same!(rt; (files.misses, files.faults), (1, 2), "a directory");
    assert_same!(rt; files.read(&mut buf), Ok(0), "after a refusal");

    let mut faults = 0;
    let mut reader = Interrupted { is_next: true };
    assert_same!(rt; read_on(&mut reader, &mut buf, &mut faults), Ok(5));
    assert_same!(rt; faults, 1, "an interruption");
    Ok(())
}
