//! Counters that stop at their last value, and which failed calls they count.
ghost use Rattle.std.specs.Prelude.{◌≡◌, ◌≤◌};
ghost use Rattle.outside.specs.Count.{next_count};

use outside::Failed;
use std::io::{self, ErrorKind};

/// Counts one more, up to the last value of a counter.
pub fn count(counter: &mut u64)
    ensures next { counter.new ≡ next_count counter.old }
    ensures grows { counter.old ≤ counter.new }
{
    *counter = counter.saturating_add(1);
}

/// Counts a call that failed, and says so.
pub fn failed(faults: &mut u64) -> Failed
    ensures next { faults.new ≡ next_count faults.old }
    ensures grows { faults.old ≤ faults.new }
{
    count(faults);
    Failed
}

/// Counts an error of a call. Where the call was interrupted it can be made again, and else it failed.
pub fn count_error(error: &io::Error, faults: &mut u64) -> Result<(), Failed>
    ensures next { faults.new ≡ next_count faults.old }
    ensures grows { faults.old ≤ faults.new }
{
    count(faults);
    if error.kind() == ErrorKind::Interrupted {
        Ok(())
    } else {
        Err(Failed)
    }
}
