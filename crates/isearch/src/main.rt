//! The program `isearch`: it hands its words, the files and the standard streams to the search,
//! and ends with the number of the status.
#![tactic(auto)]

ghost use Rattle.std.specs.Prelude.{◌≡◌};
ghost use Rattle.real_outside.specs.Refusals.{told_as};
ghost use Rattle.search_run.specs.declared.status.Status.TheVariants.{Usage, Memory};

use outside::NoGate;
use real_outside::{RealFiles, RealSink, WordsFault, collect_words};
use search_run::{Status, run};
use std::process::ExitCode;

/// Runs the search on the words that follow the program's name.
/// Where they cannot be had, it writes nothing.
fn main(rt: HostRuntime) -> ExitCode {
    let status = match collect_words(&rt) {
        Ok(words) => {
            let mut files = RealFiles::new(&rt);
            let mut out = RealSink::new(rt.stdout());
            let mut err = RealSink::new(rt.stderr());
            run(
                &rt,
                rt.alloc(),
                &words,
                &mut files,
                &mut out,
                &mut err,
                &NoGate,
            )
        }
        Err(fault) => refusal(fault),
    };
    ExitCode::from(status.code())
}

/// The status where the words cannot be had. Where one is not UTF-8 they are no command.
fn refusal(fault: WordsFault) -> Status
    ensures { result ≡ told_as fault Memory Usage }
{
    fault.told_as(Status::Memory, Status::Usage)
}
