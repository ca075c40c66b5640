//! The whole run: the words, the script, its groups, and at last the line that tells how it ended.

ghost use Rattle.std.specs.Prelude.{◌≡◌, map, string_bytes};
ghost use Rattle.live_run.specs.Ends.{CanRun, Ends, IsAnswered, TellsCause, ended};
ghost use Rattle.live_run.specs.Status.{fault_line};
ghost use Rattle.run_traffic.specs.Traffic.{Tells, read_from, wrote_to};

use crate::groups::run_groups;
use crate::script_file::{load_script, script_name};
use crate::status::LiveStatus;
use crate::tell::tell;
use outside::{Files, Gate, Sink};
use std::alloc::Global;
use std::sync::Wait;
use std::thread::Threads;

/// Runs the script that the one word names: answers go to `out`, and to `err` a line where it failed. `files` is where names
/// are opened, `rt` gives threads, and `gate` comes before each append and before the asks of each group. The status tells
/// how it ended. It may wait.
pub fn live_run<H: Threads + Wait + Sync, F: Files, S: Sink, E: Sink, G: Gate + Sync>(
    rt: &H,
    alloc: Global,
    words: &[String],
    files: &mut F,
    out: &mut S,
    err: &mut E,
    gate: &G,
) -> LiveStatus
    ensures ends { Ends (map string_bytes words.now)
        (read_from F.Files files.old files.new)
        (wrote_to S.Sink out.old out.new) result }
    ensures complete { CanRun (map string_bytes words.now) (F.held files.old)
        → IsAnswered (F.faults files.old) (F.faults files.new) (S.faults out.old) (S.faults out.new) result }
    ensures cause { TellsCause result }
    ensures told { Tells (fault_line result) (E.written err.old) (E.written err.new) (E.faults err.old) (E.faults err.new) }
    ensures kept { F.held files.new ≡ F.held files.old }
{
    let status = ended(run(rt, alloc, words, files, out, gate));
    tell(err, &status);
    status
}

// Runs the script that the one word names.
fn run<H: Threads + Wait + Sync, F: Files, S: Sink, G: Gate + Sync>(
    rt: &H,
    alloc: Global,
    words: &[String],
    files: &mut F,
    out: &mut S,
    gate: &G,
) -> Result<(), LiveStatus>
    ensures ends { Ends (map string_bytes words.now)
        (read_from F.Files files.old files.new)
        (wrote_to S.Sink out.old out.new) (ended result) }
    ensures kept { F.held files.new ≡ F.held files.old }
{
    let name = script_name(words)?;
    let script = load_script(alloc, files, name)?;
    run_groups(rt, alloc, &script.groups, files, out, gate)
}

// The status of work that ended so.
fn ended(work: Result<(), LiveStatus>) -> LiveStatus
    ensures { result ≡ ended work }
{
    match work {
        Ok(()) => LiveStatus::Done,
        Err(status) => status,
    }
}
