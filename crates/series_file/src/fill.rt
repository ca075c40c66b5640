//! Filling a buffer from the open file, however the file cuts its pieces.

ghost use Rattle.std.specs.Prelude.{◌≡◌, ◌<◌, ◌≤◌, length, take, IfOk, IfErr};
ghost use Rattle.std.specs.Io.KnownBytes.{prepend_known, IsAtEnd};
ghost use Rattle.series_file.specs.Reading.{Reads};
ghost use Rattle.series_file.specs.declared.error.FileError.TheVariants.{ReadFault};

use crate::error::FileError;
use outside::Files;

/// Reads until the buffer is full or the file is at its end, and says how many bytes came.
/// Each read that is not the end brings at least one byte.
pub fn fill<F: Files>(files: &mut F, buffer: &mut [u8]) -> Result<usize, FileError>
    ensures taken { IfOk result (λ m. F.left files.old ≡ prepend_known (take m buffer.new) (F.left files.new)) }
    ensures amount { IfOk result (λ m. (m ≤ length buffer.old)
        × (m < length buffer.old → IsAtEnd (F.left files.new))) }
    ensures errors { IfErr result (λ e. e ≡ ReadFault) }
    ensures files { Reads F.held F.left F.at F.blamed F.faults F.misses F.reliable result files.old files.new }
{
    let mut done = 0;
    while done < buffer.len() {
        let Ok(count) = files.read(&mut buffer[done..]) else {
            return Err(FileError::ReadFault);
        };
        if count == 0 {
            break;
        }
        done += count;
    }
    Ok(done)
}
