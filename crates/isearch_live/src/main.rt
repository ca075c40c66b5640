//! The program `isearch_live`: it hands its words, the files and the standard streams to the run of a script,
//! and ends with the number of the status.
#![tactic(auto)]

ghost use Rattle.std.specs.Prelude.{◌≡◌};
ghost use Rattle.live_run.specs.declared.status.LiveStatus.TheVariants.{Usage, Memory};
ghost use Rattle.real_outside.specs.Refusals.{told_as};

use live_run::{LiveStatus, live_run};
use outside::NoGate;
use real_outside::{RealFiles, RealSink, WordsFault, collect_words};
use std::process::ExitCode;

/// Runs the script that the word behind the program's name names.
/// Where the words cannot be had, it writes nothing.
fn main(rt: HostRuntime) -> ExitCode {
    let status = match collect_words(&rt) {
        Ok(words) => {
            let mut files = RealFiles::new(&rt);
            let mut out = RealSink::new(rt.stdout());
            let mut err = RealSink::new(rt.stderr());
            live_run(
                &rt,
                rt.alloc(),
                &words,
                &mut files,
                &mut out,
                &mut err,
                &NoGate,
            )
        }
        Err(fault) => refusal(fault),
    };
    ExitCode::from(status.code())
}

/// The status where the words cannot be had. Where one is not UTF-8 they name no script.
fn refusal(fault: WordsFault) -> LiveStatus
    ensures { result ≡ told_as fault Memory Usage }
{
    fault.told_as(LiveStatus::Memory, LiveStatus::Usage)
}
