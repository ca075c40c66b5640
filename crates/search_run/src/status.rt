//! How a run ends: one status, with the values that show its cause.

use certificate::Reject;
use outside::{Failed, NoMemory};
use saved_index::IndexFault;
use series_file::FileError;

/// Which of the named files a status speaks of.
#[derive(Clone, Copy, Debug, PartialEq, Eq)]
pub enum Which {
    /// The file of the collection that is searched.
    Series,
    /// The file of the queries.
    Queries,
    /// The file of a certificate.
    Certificate,
    /// The file of a saved index.
    Index,
}

/// Why a certificate does not hold.
#[derive(Clone, Copy, Debug, PartialEq, Eq)]
pub enum CertFault {
    /// The first line, counted from 1, with which the lines so far begin no certificate; where a block is not finished, one past the last.
    Line(u64),
    /// It is longer than a certificate may be.
    TooLong,
    /// What it says fails a test: this is the first that fails.
    Rejected(Reject),
}

/// How a run ended.
#[derive(Clone, Copy, Debug, PartialEq, Eq)]
pub enum Status {
    /// The whole text was written.
    Done,
    /// The words are no command.
    Usage,
    /// No file has the name.
    Missing(Which),
    /// The file could not be opened or read.
    ReadFault(Which),
    /// The file is no series file: the first test that it fails.
    Format(Which, FileError),
    /// The series of the two files have different lengths: that of the collection, that of the queries.
    Mismatch(u32, u32),
    /// More segments were asked for than a series has values: the segments, the length.
    Settings(u32, u32),
    /// The text could not be written.
    WriteFault,
    /// Memory ran out.
    Memory,
    /// The certificate does not hold.
    Invalid(CertFault),
    /// The saved index does not fit the series: the first fault that it has over them.
    Index(IndexFault),
}

impl Status {
    ghost use Rattle.std.specs.Prelude.{◌≡◌};
    ghost use Rattle.search_run.specs.Status.{code_of};

    /// The number that the program exits with.
    pub fn code(&self) -> u8
        ensures { result ≡ code_of self.now }
    {
        match self {
            Status::Done => 0,
            Status::Usage => 2,
            Status::Missing(_) => 3,
            Status::ReadFault(_) => 4,
            Status::Format(_, _) => 5,
            Status::Mismatch(_, _) => 6,
            Status::Settings(_, _) => 7,
            Status::WriteFault => 8,
            Status::Memory => 9,
            Status::Invalid(_) => 10,
            Status::Index(_) => 11,
        }
    }
}

// What the outside refuses on the way is a write: a read that it refuses names its file.
impl From<Failed> for Status {
    ghost use Rattle.std.specs.Prelude.{◌≡◌};
    ghost use Rattle.search_run.specs.declared.status.Status.TheVariants.{WriteFault};

    ghost from_gives = { λ _ e. e ≡ WriteFault };

    fn from(_: Failed) -> Status {
        Status::WriteFault
    }
}

impl From<NoMemory> for Status {
    ghost use Rattle.std.specs.Prelude.{◌≡◌};
    ghost use Rattle.search_run.specs.declared.status.Status.TheVariants.{Memory};

    ghost from_gives = { λ _ e. e ≡ Memory };

    fn from(_: NoMemory) -> Status {
        Status::Memory
    }
}
