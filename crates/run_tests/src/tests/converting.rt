//! Files that are written again with a label for each series: the bytes that come out, and the files that are refused.

use crate::tests::fixture::{LABELLED, Outside, ends_with};
use outside::NoMemory;
use search_run::{Status, Which};
use series_file::FileError;
use std::alloc::Global;
use std::test::Fail;

// The file `A`: four series of four values each, in version 1.
const PLAIN: &[u8; 48] = b"ISER\x01\0\x04\0\x04\0\0\0\0\0\0\0\
    \0\0\0\0\0\0\0\0\x0a\0\x0a\0\x0a\0\x0a\0\xf6\xff\xf6\xff\xf6\xff\xf6\xff\0\0\0\0\x0a\0\x0a\0";

// The same in version 2, with the labels 0 to 3.
const NUMBERED: &[u8; 80] = b"ISER\x02\0\0\0\x04\0\0\0\x04\0\0\0\
    \0\0\0\0\0\0\0\0\x01\0\0\0\0\0\0\0\x02\0\0\0\0\0\0\0\x03\0\0\0\0\0\0\0\
    \0\0\0\0\0\0\0\0\x0a\0\x0a\0\x0a\0\x0a\0\xf6\xff\xf6\xff\xf6\xff\xf6\xff\0\0\0\0\x0a\0\x0a\0";

// Words, the bytes of the file `C`, and what is written.
const CONVERTED: [(&str, &[u8], &[u8]); 10] = [
    ("convert A", b"", NUMBERED),
    ("convert A2", b"", LABELLED),
    ("convert C", PLAIN, NUMBERED),
    ("convert C", NUMBERED, NUMBERED),
    ("convert C", LABELLED, LABELLED),
    (
        "convert raw --raw 2",
        b"",
        b"ISER\x02\0\0\0\x02\0\0\0\x02\0\0\0\0\0\0\0\0\0\0\0\x01\0\0\0\0\0\0\0\x01\0\x01\0\x01\0\x01\0",
    ),
    (
        "convert --raw=4 raw",
        b"",
        b"ISER\x02\0\0\0\x04\0\0\0\x01\0\0\0\0\0\0\0\0\0\0\0\x01\0\x01\0\x01\0\x01\0",
    ),
    ("convert none", b"", b"ISER\x02\0\0\0\x04\0\0\0\0\0\0\0"),
    (
        "convert empty --raw 65536",
        b"",
        b"ISER\x02\0\0\0\0\0\x01\0\0\0\0\0",
    ),
    (
        "convert C",
        b"ISER\x02\0\0\0\x03\0\0\0\0\0\0\0",
        b"ISER\x02\0\0\0\x03\0\0\0\0\0\0\0",
    ),
];

#[test]
fn files_of_each_form(rt: HostRuntime) -> Result<(), Fail> {
    for piece in [1, 2, 7, 16, 4096] {
        for (line, file, text) in CONVERTED {
            let outside = Outside::sound(piece);
            ends_with(&rt, rt.alloc(), line, file, outside, (Status::Done, text))?;
        }
    }
    Ok(())
}

#[test]
fn a_series_of_the_greatest_length(rt: HostRuntime) -> Result<(), Fail> {
    let mut text = b"ISER\x02\0\0\0\0\0\x01\0\x01\0\0\0\0\0\0\0\0\0\0\0".to_vec(rt.alloc())?;
    for _ in 0..65536 {
        text.extend_from_slice(&[0, 0x80])?;
    }
    let outside = Outside {
        room: 200000,
        ..Outside::sound(4096)
    };
    let line = "convert lowest --raw 65536";
    let wanted = (Status::Done, text.as_slice());
    ends_with(&rt, rt.alloc(), line, b"", outside, wanted)?;
    Ok(())
}

// The labelled file with these bytes changed.
fn changed(alloc: Global, changes: &[(usize, u8)]) -> Result<Vec<u8>, NoMemory> {
    let mut bytes = LABELLED.to_vec(alloc)?;
    for (place, byte) in changes {
        if let Some(old) = bytes.get_mut(*place) {
            *old = *byte;
        }
    }
    Ok(bytes)
}

#[test]
fn headers_that_are_refused(rt: HostRuntime) -> Result<(), Fail> {
    // Changes of the labelled file, as (place, byte), and its fault then.
    let table: [(&[(usize, u8)], FileError); 4] = [
        (&[(0, 0x48)], FileError::Magic),
        (&[(6, 1)], FileError::Reserved(1)),
        (&[(8, 1), (10, 1)], FileError::Length(65537)),
        (&[(4, 3)], FileError::Version(3)),
    ];
    for (changes, fault) in table {
        let file = changed(rt.alloc(), changes)?;
        let wanted = (Status::Format(Which::Series, fault), [].as_slice());
        let outside = Outside::sound(7);
        ends_with(&rt, rt.alloc(), "convert C", &file, outside, wanted)?;
    }
    Ok(())
}

#[test]
fn each_beginning_of_a_file(rt: HostRuntime) -> Result<(), Fail> {
    for (whole, want) in [(PLAIN.as_slice(), 48u64), (LABELLED, 80)] {
        for at in 0..want {
            let fault = if at < 16 {
                FileError::ShortHeader(at)
            } else {
                FileError::Truncated { at, want }
            };
            let file = &whole[..whole.len().min(at as usize)];
            let wanted = (Status::Format(Which::Series, fault), [].as_slice());
            let outside = Outside::sound(16);
            ends_with(&rt, rt.alloc(), "convert C", file, outside, wanted)?;
        }
    }
    Ok(())
}

#[test]
fn each_write_may_fail(rt: HostRuntime) -> Result<(), Fail> {
    // The 80 bytes take twelve writes of seven.
    for write in 1..=13usize {
        let outside = Outside {
            write: write as u64,
            ..Outside::sound(7)
        };
        let before = write.saturating_sub(1).saturating_mul(7);
        let wanted = if before < NUMBERED.len() {
            (Status::WriteFault, &NUMBERED[..before.min(80)])
        } else {
            (Status::Done, NUMBERED.as_slice())
        };
        ends_with(&rt, rt.alloc(), "convert A", b"", outside, wanted)?;
    }
    Ok(())
}

#[test]
fn each_open_and_read_may_fail(rt: HostRuntime) -> Result<(), Fail> {
    let failed = (Status::ReadFault(Which::Series), [].as_slice());
    let done = (Status::Done, NUMBERED.as_slice());
    let sound = Outside::sound(16);
    // The file of 48 bytes takes three reads of sixteen, and its end a fourth.
    for (open, read, wanted) in [
        (1, 0, failed),
        (2, 0, done),
        (0, 1, failed),
        (0, 2, failed),
        (0, 3, failed),
        (0, 4, failed),
        (0, 5, done),
    ] {
        let outside = Outside {
            open,
            read,
            ..sound
        };
        ends_with(&rt, rt.alloc(), "convert A", b"", outside, wanted)?;
    }
    Ok(())
}
