//! Tests: each beginning of a file, and each byte of its header changed to each value, against the plain reader.

use super::plain_reader::{Content, plain_read};
use super::{LABELLED, PLAIN};
use crate::claims::assert_same;
use outside::{Files, MemFiles};
use series_core::{Flat, Rows};
use series_file::{FileError, Form, Loaded, read_series, write_series};
use std::alloc::Global;
use std::test::Fail;

// What the bytes are read to, in pieces of at most `cap` bytes.
fn read(alloc: Global, bytes: &[u8], cap: usize) -> Result<Loaded, FileError> {
    let mut files = MemFiles::new(alloc, cap.max(1), Vec::new(alloc), Vec::new(alloc));
    if files.hold("a", bytes).is_err() || files.open_file("a").is_err() {
        return Err(FileError::NoMemory);
    }
    read_series(alloc, &mut files, Form::Headed)
}

// Whether this is what the plain reader holds.
fn is_same(loaded: &Loaded, plain: &Content) -> bool {
    let labels: &[u64] = match &loaded.labels {
        Some(labels) => &labels.items,
        None => &[],
    };
    let plain_labels: &[u64] = match &plain.labels {
        Some(labels) => labels,
        None => &[],
    };
    loaded.rows.length() == plain.length
        && loaded.rows.values() == plain.values.as_slice()
        && loaded.labels.is_some() == plain.labels.is_some()
        && labels == plain_labels
}

// Whether the bytes are read as the plain reader reads them.
fn agrees(alloc: Global, bytes: &[u8], cap: usize) -> bool {
    match (read(alloc, bytes, cap), plain_read(alloc, bytes)) {
        (Ok(loaded), Ok(plain)) => is_same(&loaded, &plain),
        (Err(found), Err(want)) => found == want && found != FileError::NoMemory,
        _ => false,
    }
}

// The first length of a beginning that is not read as the plain reader reads it.
fn first_wrong_prefix(alloc: Global, file: &[u8], cap: usize) -> Option<usize> {
    (0..file.len()).find(|cut| !agrees(alloc, &file[..*cut], cap))
}

// The first value of the byte at this place with which the file is not read as the plain reader reads it.
fn first_wrong_byte(alloc: Global, file: &[u8], place: usize) -> Option<u8> {
    let Ok(mut bytes) = file.to_vec(alloc) else {
        return Some(0);
    };
    for byte in 0..=255u8 {
        if let Some(changed) = bytes.get_mut(place) {
            *changed = byte;
        }
        if !agrees(alloc, &bytes, 64) {
            return Some(byte);
        }
    }
    None
}

// A file of each version.
fn versions() -> [(u8, &'static [u8]); 2] {
    [(1, &PLAIN), (2, &LABELLED)]
}

#[test]
fn whole_files_and_each_prefix(rt: HostRuntime) {
    for (version, file) in versions() {
        for cap in [1, 7, 64] {
            assert_same!(rt; agrees(rt.alloc(), file, cap), true, "version {version} in pieces of {cap}");
            assert_same!(rt;
                first_wrong_prefix(rt.alloc(), file, cap),
                None,
                "a beginning of version {version} in pieces of {cap}"
            );
        }
    }
}

#[test]
fn each_header_byte(rt: HostRuntime) {
    for (version, file) in versions() {
        for place in 0..16 {
            assert_same!(rt;
                first_wrong_byte(rt.alloc(), file, place),
                None,
                "byte {place} of version {version}"
            );
        }
    }
}

#[test]
fn written_and_read_again(rt: HostRuntime) -> Result<(), Fail> {
    let alloc = rt.alloc();
    let values = [0i16, -1, i16::MIN, i16::MAX, 258, 7];
    for (length, labels) in [
        (1, None),
        (2, Some([3u64, 3, u64::MAX].as_slice())),
        (6, None),
    ] {
        let rows = Flat::from_values(length, values.to_vec(alloc)?);
        let bytes = write_series(alloc, &rows, labels)?;
        let again = read(alloc, &bytes, 7)?;
        assert_same!(rt; again.rows.length(), length, "length {length}");
        assert_same!(rt; again.rows.values(), values.as_slice(), "length {length}");
        let found: &[u64] = match &again.labels {
            Some(labels) => &labels.items,
            None => &[],
        };
        assert_same!(rt; found, labels.unwrap_or(&[]), "length {length}");
        assert_same!(rt; again.labels.is_some(), labels.is_some(), "length {length}");
    }
    Ok(())
}
