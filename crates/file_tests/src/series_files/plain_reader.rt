//! A plain reader of a whole file with a header, byte by byte, for tests to compare with.

ghost use Rattle.std.specs.Prelude.{◌≤◌};

use series_file::FileError;
use std::alloc::Global;

/// What a file holds: the length of a series, all values in order, and the labels where it has them.
#[derive(Drop)]
pub struct Content {
    pub length: u32,
    pub values: Vec<i16>,
    pub labels: Option<Vec<u64>>,
}

/// Reads the bytes, or gives the first test that they fail.
pub fn plain_read(alloc: Global, bytes: &[u8]) -> Result<Content, FileError> {
    let size = bytes.len() as u64;
    if size < 16 {
        return Err(FileError::ShortHeader(size));
    }
    if !bytes.starts_with(b"ISER") {
        return Err(FileError::Magic);
    }
    let (labelled, length, count, reserved) = match two(bytes, 4) {
        1 => (
            false,
            u32::from(two(bytes, 6)),
            four(bytes, 8),
            four(bytes, 12),
        ),
        2 => (
            true,
            four(bytes, 8),
            four(bytes, 12),
            u32::from(two(bytes, 6)),
        ),
        version => return Err(FileError::Version(version)),
    };
    if length < 1 || length > 65536 {
        return Err(FileError::Length(length));
    }
    if count > 16777216 {
        return Err(FileError::Count(count));
    }
    if reserved != 0 {
        return Err(FileError::Reserved(reserved));
    }
    whole(alloc, bytes, labelled, length, count)
}

// The tests of the size, and then what stands behind the header.
fn whole(
    alloc: Global,
    bytes: &[u8],
    labelled: bool,
    length: u32,
    count: u32,
) -> Result<Content, FileError>
    requires series { count ≤ 16777216 }
    requires points { length ≤ 65536 }
{
    let size = bytes.len() as u64;
    let values = u64::from(count) * u64::from(length);
    if values > 134217728 {
        return Err(FileError::TooLarge(values));
    }
    let start = if labelled {
        16 + 8 * u64::from(count)
    } else {
        16
    };
    let want = start + 2 * values;
    if size < want {
        return Err(FileError::Truncated { at: size, want });
    }
    if size > want {
        return Err(FileError::Trailing(want));
    }
    Ok(Content {
        length,
        values: values_at(alloc, bytes, start)?,
        labels: if labelled {
            Some(labels_at(alloc, bytes, count)?)
        } else {
            None
        },
    })
}

// The values from this place to the end.
fn values_at(alloc: Global, bytes: &[u8], start: u64) -> Result<Vec<i16>, FileError> {
    let mut values = Vec::new(alloc);
    for place in start..bytes.len() as u64 {
        if place % 2 == 0 {
            let low = byte(bytes, place as usize);
            let high = byte(bytes, place as usize + 1);
            values.push(i16::from_le_bytes([low, high]))?;
        }
    }
    Ok(values)
}

// The labels behind the header.
fn labels_at(alloc: Global, bytes: &[u8], count: u32) -> Result<Vec<u64>, FileError>
    requires { count ≤ 16777216 }
{
    let mut labels = Vec::new(alloc);
    for number in 0..count {
        let place = 16 + 8 * number as usize;
        let high = u64::from(four(bytes, place + 4));
        labels.push(high * 4294967296 + u64::from(four(bytes, place)))?;
    }
    Ok(labels)
}

// The number in the two bytes from this place on, the lower first.
fn two(bytes: &[u8], place: usize) -> u16
    requires { place ≤ 1000000000 }
{
    u16::from(byte(bytes, place)) + 256 * u16::from(byte(bytes, place + 1))
}

// The number in the four bytes from this place on, the lowest first.
fn four(bytes: &[u8], place: usize) -> u32
    requires { place ≤ 999999998 }
{
    u32::from(two(bytes, place)) + 65536 * u32::from(two(bytes, place + 2))
}

// The byte at this place, 0 behind the end.
fn byte(bytes: &[u8], place: usize) -> u8 {
    bytes.get(place).copied().unwrap_or(0)
}
