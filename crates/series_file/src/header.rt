//! The header of a series file: its fields by version, and the tests that it has to pass, in their order.

ghost use Rattle.std.specs.Prelude.{◌≡◌, ◌*◌, ◌<◌, ◌≤◌, ◌==◌, None, Some, length, if◌then◌else◌};
ghost use Rattle.std.specs.List.{All};
ghost use Rattle.series_file.specs.Faults.{header_tests, field_tests};
ghost use Rattle.series_file.specs.Header.{header_of, IsHeader, TestsTo};

use crate::error::FileError;
use byteorder::{ByteOrder, LittleEndian};
use series_core::{MAX_COUNT, MAX_LENGTH, MAX_VALUES};

/// How many bytes a header has, in both versions.
pub const HEADER_BYTES: usize = 16;

/// What a header says of its file.
#[derive(Clone, Copy, Debug, PartialEq, Eq)]
pub struct Header {
    /// Whether labels stand before the values.
    pub labelled: bool,
    /// The length of each series.
    pub length: u32,
    /// The number of series.
    pub count: u32,
}

impl Header {
    ghost use Rattle.std.specs.Prelude.{◌≡◌, ◌+◌, ◌≤◌};
    ghost use Rattle.series_file.specs.Header.{IsHeader};
    ghost use Rattle.series_file.specs.Body.{label_bytes, value_bytes, file_bytes};
    ghost use Rattle.series_file.specs.declared.error.FileError.TheVariants.{Truncated};

    /// How many bytes the labels have.
    pub fn label_bytes(&self) -> u64
        requires { IsHeader self.now }
        ensures exact { result ≡ label_bytes self.now }
        ensures limit { result ≤ MAX_VALUES }
    {
        if self.labelled {
            8 * u64::from(self.count)
        } else {
            0
        }
    }

    /// How many bytes the values have.
    pub fn value_bytes(&self) -> u64
        requires { IsHeader self.now }
        ensures exact { result ≡ value_bytes self.now }
        ensures limit { result ≤ 268435456 }
    {
        2 * (u64::from(self.count) * u64::from(self.length))
    }

    /// How many bytes the whole file has.
    pub fn file_bytes(&self) -> u64
        requires { IsHeader self.now }
        ensures { result ≡ file_bytes self.now }
    {
        HEADER_BYTES as u64 + self.label_bytes() + self.value_bytes()
    }

    /// The error where the file ends `bytes` bytes behind its header.
    pub fn ends_at(&self, bytes: u64) -> FileError
        requires sound { IsHeader self.now }
        requires limit { bytes ≤ 1000000000 }
        ensures { result ≡ Truncated (16 + bytes) (file_bytes self.now) }
    {
        FileError::Truncated {
            at: HEADER_BYTES as u64 + bytes,
            want: self.file_bytes(),
        }
    }
}

/// The header that these bytes spell, or the first test that they fail.
pub fn parse(bytes: &[u8]) -> Result<Header, FileError>
    requires { length bytes.now ≡ 16 }
    ensures exact { TestsTo (header_tests bytes.now) (header_of bytes.now) result }
    ensures each { All (λ b. b < 256) bytes.now }
{
    if bytes[..4] != [73, 83, 69, 82] {
        return Err(FileError::Magic);
    }
    let version = LittleEndian::read_u16(&bytes[4..]);
    let narrow = LittleEndian::read_u16(&bytes[6..]);
    let middle = LittleEndian::read_u32(&bytes[8..]);
    let last = LittleEndian::read_u32(&bytes[12..]);
    match version {
        1 => test(false, u32::from(narrow), middle, last),
        2 => test(true, middle, last, u32::from(narrow)),
        _ => Err(FileError::Version(version)),
    }
}

// The fields as a header, or the first test that they fail.
fn test(labelled: bool, length: u32, count: u32, reserved: u32) -> Result<Header, FileError>
    ensures { TestsTo (field_tests length count reserved)
        (record { labelled = labelled; length = length; count = count }) result }
{
    if length == 0 || length > MAX_LENGTH {
        return Err(FileError::Length(length));
    }
    if count > MAX_COUNT {
        return Err(FileError::Count(count));
    }
    if reserved != 0 {
        return Err(FileError::Reserved(reserved));
    }
    let values = u64::from(count) * u64::from(length);
    if values > u64::from(MAX_VALUES) {
        return Err(FileError::TooLarge(values));
    }
    Ok(Header {
        labelled,
        length,
        count,
    })
}
