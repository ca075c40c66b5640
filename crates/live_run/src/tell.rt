//! The line that tells how a run of a script ended. It takes no memory, and a fault of its sink changes nothing of the status.

ghost use Rattle.std.specs.Prelude.{◌≡◌};
ghost use Rattle.live_run.specs.Status.{fault_line};
ghost use Rattle.run_traffic.specs.Traffic.{Tells};

use crate::status::LiveStatus;
use outside::{Sink, write_whole};

// The line of a status, empty where the whole text was written.
fn line_of(status: &LiveStatus) -> &'static str
    ensures { result.now ≡ fault_line status.now }
{
    match status {
        LiveStatus::Done => "",
        LiveStatus::Usage => "isearch_live: status 2\n",
        LiveStatus::Missing(_) => "isearch_live: status 3\n",
        LiveStatus::ReadFault(_) => "isearch_live: status 4\n",
        LiveStatus::Format(_, _) => "isearch_live: status 5\n",
        LiveStatus::Mismatch(_, _, _) => "isearch_live: status 6\n",
        LiveStatus::WriteFault => "isearch_live: status 8\n",
        LiveStatus::Memory => "isearch_live: status 9\n",
        LiveStatus::Script(_) => "isearch_live: status 12\n",
        LiveStatus::Full(_, _) => "isearch_live: status 13\n",
    }
}

/// Writes the line of a status, and nothing where the whole text was written.
/// Where the sink fails a prefix of the line stands there.
pub fn tell<E: Sink>(err: &mut E, status: &LiveStatus)
    ensures { Tells (fault_line status.now) (E.written err.old) (E.written err.new) (E.faults err.old) (E.faults err.new) }
{
    match write_whole(err, line_of(status).as_bytes()) {
        Ok(()) => {}
        Err(_) => {}
    }
}
