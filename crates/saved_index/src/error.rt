//! Why a saved index is refused. The first of the refusals, in this order, is given.
ghost use Rattle.std.specs.Prelude.{◌≡◌};
ghost use Rattle.saved_index.specs.declared.error.IndexFault.TheVariants.{NoMemory as NoMemoryLeft};

use outside::NoMemory;
use std::alloc::{AllocError, AllocFailed};
use thiserror::Error;

/// Why a saved index is refused: what its bytes have against them over the collection, or that reading failed.
#[derive(Clone, Copy, Debug, PartialEq, Eq, Error)]
pub enum IndexFault {
    /// The bytes are the text of no index.
    #[error("not an index")]
    NotIndex,
    /// The series of the index have the first length, those of the collection the second.
    #[error("length {0} is not {1}")]
    Length(u32, u32),
    /// The index has the first count of series, the collection the second.
    #[error("count {0} is not {1}")]
    Count(u32, u32),
    /// The series of this number is not a member of exactly one leaf whose word contains its full word, and none before it.
    #[error("series {0} does not fit")]
    Unfit(u32),
    /// More bytes than a saved index may have.
    #[error("longer than 1073741824 bytes")]
    TooLong,
    /// A read failed.
    #[error("read failed")]
    ReadFault,
    /// Memory ran out.
    #[error("out of memory")]
    NoMemory,
}

impl From<NoMemory> for IndexFault {
    ghost from_gives = { λ _ e. e ≡ NoMemoryLeft };

    fn from(_: NoMemory) -> IndexFault {
        IndexFault::NoMemory
    }
}

impl From<AllocError> for IndexFault {
    ghost from_gives = { λ _ e. e ≡ NoMemoryLeft };

    fn from(_: AllocError) -> IndexFault {
        IndexFault::NoMemory
    }
}

impl<T: Drop> From<AllocFailed<T>> for IndexFault {
    ghost from_gives = { λ _ e. e ≡ NoMemoryLeft };

    fn from(_: AllocFailed<T>) -> IndexFault {
        IndexFault::NoMemory
    }
}
