//! The refusals of the outside. Want of memory is a variant or a type of its own, merged with no other.
ghost use Rattle.std.specs.Prelude.{◌≡◌};
ghost use Rattle.outside.specs.declared.faults.AllError.TheVariants.{NoMemory as NoMemoryLeft};

use std::alloc::{AllocError, AllocFailed};
use thiserror::Error;

/// A read or a write that the outside refused.
#[derive(Clone, Copy, Debug, PartialEq, Eq, Error)]
#[error("the outside refused")]
pub struct Failed;

/// Memory ran out.
#[derive(Clone, Copy, Debug, PartialEq, Eq, Error)]
#[error("out of memory")]
pub struct NoMemory;

/// Why a file was not opened.
#[derive(Clone, Copy, Debug, PartialEq, Eq, Error)]
pub enum OpenFault {
    /// No file has the name.
    #[error("no such file")]
    Absent,
    /// The outside refused.
    #[error("the file cannot be opened")]
    Failed,
    /// Memory ran out.
    #[error("out of memory")]
    NoMemory,
}

/// Why the rest of a file was not read whole.
#[derive(Clone, Copy, Debug, PartialEq, Eq, Error)]
pub enum AllError {
    /// More bytes were left than the limit allows.
    #[error("longer than allowed")]
    Longer,
    /// A read failed.
    #[error("the file cannot be read")]
    ReadFault,
    /// Memory ran out.
    #[error("out of memory")]
    NoMemory,
}

impl From<AllocError> for NoMemory {
    fn from(_: AllocError) -> NoMemory {
        NoMemory
    }
}

impl<T: Drop> From<AllocFailed<T>> for NoMemory {
    fn from(_: AllocFailed<T>) -> NoMemory {
        NoMemory
    }
}

impl From<AllocError> for AllError {
    ghost from_gives = { λ _ e. e ≡ NoMemoryLeft };

    fn from(_: AllocError) -> AllError {
        AllError::NoMemory
    }
}
