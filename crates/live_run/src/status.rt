//! How a run of a script ends: one status, with the values that show its cause.

use live_collection::AppendError;
use outside::{Failed, NoMemory};
use series_file::FileError;

/// How a run of a script ended. A first number is the line of the script that names the file, or 0 for the script itself.
#[derive(Clone, Copy, Debug, PartialEq, Eq)]
pub enum LiveStatus {
    /// The whole text was written.
    Done,
    /// The words are not the one name of a script.
    Usage,
    /// No file has the name.
    Missing(u32),
    /// The file could not be opened or read.
    ReadFault(u32),
    /// The file is no series file: the first test that it fails.
    Format(u32, FileError),
    /// The file's series have another length than those of the first file: the line, the length, that of the first file.
    Mismatch(u32, u32, u32),
    /// The text could not be written.
    WriteFault,
    /// Memory ran out.
    Memory,
    /// The first line that is not in the grammar, from 1; or 0 where the script is longer than 1048576 bytes.
    Script(u32),
    /// These numbers of batches and of series stand, and leave no room for the next batch.
    Full(u32, u32),
}

impl LiveStatus {
    ghost use Rattle.std.specs.Prelude.{◌≡◌};
    ghost use Rattle.live_run.specs.Status.{code_of};

    /// The number that the program exits with.
    pub fn code(&self) -> u8
        ensures { result ≡ code_of self.now }
    {
        match self {
            LiveStatus::Done => 0,
            LiveStatus::Usage => 2,
            LiveStatus::Missing(_) => 3,
            LiveStatus::ReadFault(_) => 4,
            LiveStatus::Format(_, _) => 5,
            LiveStatus::Mismatch(_, _, _) => 6,
            LiveStatus::WriteFault => 8,
            LiveStatus::Memory => 9,
            LiveStatus::Script(_) => 12,
            LiveStatus::Full(_, _) => 13,
        }
    }
}

// What the outside refuses on the way is a write: a read that it refuses tells its line.
impl From<Failed> for LiveStatus {
    ghost use Rattle.std.specs.Prelude.{◌≡◌};
    ghost use Rattle.live_run.specs.declared.status.LiveStatus.TheVariants.{WriteFault};

    ghost from_gives = { λ _ e. e ≡ WriteFault };

    fn from(_: Failed) -> LiveStatus {
        LiveStatus::WriteFault
    }
}

impl From<NoMemory> for LiveStatus {
    ghost use Rattle.std.specs.Prelude.{◌≡◌};
    ghost use Rattle.live_run.specs.declared.status.LiveStatus.TheVariants.{Memory};

    ghost from_gives = { λ _ e. e ≡ Memory };

    fn from(_: NoMemory) -> LiveStatus {
        LiveStatus::Memory
    }
}

impl From<AppendError> for LiveStatus {
    ghost use Rattle.std.specs.Prelude.{◌≡◌};
    ghost use Rattle.live_run.specs.Status.{status_of};

    ghost from_gives = { λ error e. e ≡ status_of error };

    fn from(error: AppendError) -> LiveStatus {
        match error {
            AppendError::Full(batches, series) => LiveStatus::Full(batches, series),
            AppendError::NoMemory => LiveStatus::Memory,
        }
    }
}
