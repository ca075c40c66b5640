//! The forms of a series file, what one holds, and why one is refused.
//! Each test of a format has its own error, with the values that failed it.

ghost use Rattle.std.specs.Prelude.{◌≡◌};
ghost use Rattle.series_file.specs.declared.error.FileError.TheVariants.{NoMemory};

use series_core::{Flat, LabelList};
use std::alloc::{AllocError, AllocFailed};
use thiserror::Error;

/// How a series file is spelled.
#[derive(Clone, Copy, Debug, PartialEq, Eq)]
pub enum Form {
    /// A header of version 1 or 2, then the labels of version 2, then the values.
    Headed,
    /// The values alone, of series of this length each.
    Raw(u32),
}

/// What a series file holds.
#[derive(Drop)]
pub struct Loaded {
    /// The series.
    pub rows: Flat,
    /// One label a series, where the file has labels.
    pub labels: Option<LabelList>,
}

/// Why a series file is refused: the first failing test, with its values, or that reading failed.
#[derive(Clone, Copy, Debug, PartialEq, Eq, Error)]
pub enum FileError {
    /// The file ends within its header, after this many bytes.
    #[error("header ends at byte {0}")]
    ShortHeader(u64),
    /// The file does not begin with the magic of a series file.
    #[error("not a series file")]
    Magic,
    /// No such version.
    #[error("version {0}")]
    Version(u16),
    /// No such length of a series.
    #[error("length {0}")]
    Length(u32),
    /// More series than allowed.
    #[error("count {0}")]
    Count(u32),
    /// The reserved field is not 0.
    #[error("reserved {0}")]
    Reserved(u32),
    /// More values, or of a raw file more bytes, than allowed: this many.
    #[error("too large {0}")]
    TooLarge(u64),
    /// The file ends before its last value.
    #[error("ends at byte {at} of {want}")]
    Truncated {
        /// How many bytes the file has.
        at: u64,
        /// How many bytes the header asks for.
        want: u64,
    },
    /// Something follows the last value, which ends at this byte.
    #[error("bytes after {0}")]
    Trailing(u64),
    /// A raw file of this many bytes, which make no whole number of series.
    #[error("{0} bytes are no whole number of series")]
    Uneven(u64),
    /// A read failed.
    #[error("read failed")]
    ReadFault,
    /// Memory ran out.
    #[error("out of memory")]
    NoMemory,
}

impl From<AllocError> for FileError {
    ghost from_gives = { λ _ e. e ≡ NoMemory };

    fn from(_: AllocError) -> FileError {
        FileError::NoMemory
    }
}

impl<T: Drop> From<AllocFailed<T>> for FileError {
    ghost from_gives = { λ _ e. e ≡ NoMemory };

    fn from(_: AllocFailed<T>) -> FileError {
        FileError::NoMemory
    }
}
