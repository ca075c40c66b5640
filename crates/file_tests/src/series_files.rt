//! Tests: files without and with labels and raw ones, read and written, and the first failing test of each bad file.

ghost use Rattle.series_file.specs.Stages.{IsForm};

mod each_byte;
mod plain_reader;

use crate::claims::assert_same;
use outside::{Files, MemFiles};
use series_core::{Flat, Rows};
use series_file::{FileError, Form, Loaded, read_series, write_numbered, write_series};
use std::alloc::Global;
use std::test::Fail;

/// Four series of length 4, in a file of version 1.
pub const PLAIN: [u8; 48] = [
    0x49, 0x53, 0x45, 0x52, 1, 0, 4, 0, 4, 0, 0, 0, 0, 0, 0, 0, //
    0, 0, 0, 0, 0, 0, 0, 0, 10, 0, 10, 0, 10, 0, 10, 0, //
    0xf6, 0xff, 0xf6, 0xff, 0xf6, 0xff, 0xf6, 0xff, 0, 0, 0, 0, 10, 0, 10, 0,
];

/// The same with the labels 100, 7, 7 and the greatest, in a file of version 2.
pub const LABELLED: [u8; 80] = [
    0x49, 0x53, 0x45, 0x52, 2, 0, 0, 0, 4, 0, 0, 0, 4, 0, 0, 0, //
    100, 0, 0, 0, 0, 0, 0, 0, 7, 0, 0, 0, 0, 0, 0, 0, //
    7, 0, 0, 0, 0, 0, 0, 0, 0xff, 0xff, 0xff, 0xff, 0xff, 0xff, 0xff, 0xff, //
    0, 0, 0, 0, 0, 0, 0, 0, 10, 0, 10, 0, 10, 0, 10, 0, //
    0xf6, 0xff, 0xf6, 0xff, 0xf6, 0xff, 0xf6, 0xff, 0, 0, 0, 0, 10, 0, 10, 0,
];

const VALUES: [i16; 16] = [0, 0, 0, 0, 10, 10, 10, 10, -10, -10, -10, -10, 0, 0, 10, 10];

const LABELS: [u64; 4] = [100, 7, 7, 18446744073709551615];

// What the bytes are read to, in pieces of seven bytes.
fn read(alloc: Global, bytes: &[u8], form: Form) -> Result<Loaded, FileError>
    requires { IsForm form }
{
    let mut files = MemFiles::new(alloc, 7, Vec::new(alloc), Vec::new(alloc));
    if files.hold("a", bytes).is_err() || files.open_file("a").is_err() {
        return Err(FileError::NoMemory);
    }
    read_series(alloc, &mut files, form)
}

// The labels, none where the file has none.
fn labels_of(loaded: &Loaded) -> &[u64] {
    match &loaded.labels {
        Some(labels) => &labels.items,
        None => &[],
    }
}

// Why the bytes are refused, if they are.
fn fault(alloc: Global, bytes: &[u8], form: Form) -> Option<FileError>
    requires { IsForm form }
{
    read(alloc, bytes, form).err()
}

#[test]
fn a_file_without_labels(rt: HostRuntime) -> Result<(), Fail> {
    let loaded = read(rt.alloc(), &PLAIN, Form::Headed)?;
    assert_same!(rt; loaded.rows.length(), 4);
    assert_same!(rt; loaded.rows.values(), VALUES.as_slice());
    assert_same!(rt; loaded.labels.is_none(), true, "version 1 has no labels");
    Ok(())
}

#[test]
fn a_file_with_labels(rt: HostRuntime) -> Result<(), Fail> {
    let loaded = read(rt.alloc(), &LABELLED, Form::Headed)?;
    assert_same!(rt; loaded.rows.length(), 4);
    assert_same!(rt; loaded.rows.values(), VALUES.as_slice());
    assert_same!(rt; labels_of(&loaded), LABELS.as_slice());
    Ok(())
}

#[test]
fn raw_files(rt: HostRuntime) -> Result<(), Fail> {
    let two = read(
        rt.alloc(),
        &[1, 0, 0xff, 0xff, 0, 0x80, 0xff, 0x7f],
        Form::Raw(2),
    )?;
    assert_same!(rt; two.rows.count(), 2);
    assert_same!(rt;
        two.rows.values(),
        [1i16, -1, i16::MIN, i16::MAX].as_slice()
    );
    let none = read(rt.alloc(), &[], Form::Raw(2))?;
    assert_same!(rt; none.rows.count(), 0, "no bytes are no series");
    assert_same!(rt; none.rows.length(), 2);
    assert_same!(rt;
        fault(rt.alloc(), &[0; 7], Form::Raw(2)),
        Some(FileError::Uneven(7))
    );
    Ok(())
}

#[test]
fn written_files(rt: HostRuntime) -> Result<(), Fail> {
    let alloc = rt.alloc();
    let rows = Flat::from_values(4, VALUES.to_vec(alloc)?);
    assert_same!(rt;
        write_series(alloc, &rows, None)?.as_slice(),
        PLAIN.as_slice()
    );
    assert_same!(rt;
        write_series(alloc, &rows, Some(&LABELS))?.as_slice(),
        LABELLED.as_slice()
    );
    Ok(())
}

#[test]
fn a_file_with_numbers_as_labels(rt: HostRuntime) -> Result<(), Fail> {
    let alloc = rt.alloc();
    let rows = Flat::from_values(4, VALUES.to_vec(alloc)?);
    let bytes = write_numbered(alloc, &rows)?;
    assert_same!(rt;
        bytes.as_slice(),
        write_series(alloc, &rows, Some(&[0, 1, 2, 3]))?.as_slice()
    );
    let loaded = read(alloc, &bytes, Form::Headed)?;
    assert_same!(rt; labels_of(&loaded), [0, 1, 2, 3].as_slice());
    assert_same!(rt; loaded.rows.values(), VALUES.as_slice());
    let none = write_numbered(alloc, &Flat::from_values(4, Vec::new(alloc)))?;
    assert_same!(rt; none.len(), 16, "no series have no labels");
    Ok(())
}

#[test]
fn each_prefix(rt: HostRuntime) -> Result<(), Fail> {
    for cut in 0..48u64 {
        let want = if cut < 16 {
            FileError::ShortHeader(cut)
        } else {
            FileError::Truncated { at: cut, want: 48 }
        };
        let found = fault(rt.alloc(), &PLAIN[..cut as usize], Form::Headed);
        assert_same!(rt; found, Some(want), "cut to {cut}");
    }
    let short = fault(rt.alloc(), &LABELLED[..79], Form::Headed);
    assert_same!(rt; short, Some(FileError::Truncated { at: 79, want: 80 }));
    Ok(())
}

// Changes of a file, as (place, byte), and its fault then.
const PLAIN_CHANGES: [(&[(usize, u8)], FileError); 8] = [
    (&[(0, 0x48)], FileError::Magic),
    (&[(3, 0x53), (4, 9)], FileError::Magic),
    (&[(4, 0), (6, 0)], FileError::Version(0)),
    (&[(5, 1)], FileError::Version(257)),
    (&[(6, 0), (8, 1), (10, 16)], FileError::Length(0)),
    (&[(8, 1), (11, 1), (12, 1)], FileError::Count(16777217)),
    (&[(12, 1)], FileError::Reserved(1)),
    (
        &[(6, 0xff), (7, 0xff), (8, 0), (11, 1)],
        FileError::TooLarge(1099494850560),
    ),
];

const LABELLED_CHANGES: [(&[(usize, u8)], FileError); 4] = [
    (&[(4, 3)], FileError::Version(3)),
    (&[(6, 1)], FileError::Reserved(1)),
    (&[(8, 1), (10, 1)], FileError::Length(65537)),
    (&[(12, 5)], FileError::Truncated { at: 80, want: 96 }),
];

#[test]
fn changed_headers(rt: HostRuntime) -> Result<(), Fail> {
    for (changes, want) in PLAIN_CHANGES {
        let found = changed(rt.alloc(), &PLAIN, changes);
        assert_same!(rt; found, Some(want), "version 1, {changes:?}");
    }
    for (changes, want) in LABELLED_CHANGES {
        let found = changed(rt.alloc(), &LABELLED, changes);
        assert_same!(rt; found, Some(want), "version 2, {changes:?}");
    }
    Ok(())
}

// The fault of the file with these bytes changed.
fn changed(alloc: Global, file: &[u8], changes: &[(usize, u8)]) -> Option<FileError> {
    let Ok(mut bytes) = file.to_vec(alloc) else {
        return None;
    };
    for (place, byte) in changes {
        if let Some(changed) = bytes.get_mut(*place) {
            *changed = *byte;
        }
    }
    fault(alloc, &bytes, Form::Headed)
}

#[test]
fn one_byte_too_many(rt: HostRuntime) -> Result<(), Fail> {
    for (file, want) in [(PLAIN.as_slice(), 48), (LABELLED.as_slice(), 80)] {
        let mut bytes = file.to_vec(rt.alloc())?;
        bytes.push(0)?;
        let found = fault(rt.alloc(), &bytes, Form::Headed);
        assert_same!(rt; found, Some(FileError::Trailing(want)), "file of {want}");
    }
    Ok(())
}

#[test]
fn a_listed_read_fails(rt: HostRuntime) -> Result<(), Fail> {
    let alloc = rt.alloc();
    // In pieces of sixteen bytes the file needs three reads, and its end a fourth.
    for (listed, fails) in [(1, true), (2, true), (3, true), (4, true), (5, false)] {
        let mut files = MemFiles::new(alloc, 16, Vec::new(alloc), [listed].to_vec(alloc)?);
        files.hold("a", &PLAIN)?;
        files.open_file("a")?;
        let found = read_series(alloc, &mut files, Form::Headed).err();
        let want = if fails {
            Some(FileError::ReadFault)
        } else {
            None
        };
        assert_same!(rt; found, want, "read {listed}");
    }
    Ok(())
}
