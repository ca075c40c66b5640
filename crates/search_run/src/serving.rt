//! One command, answered by what each command does. The calls by which a team searches are handed down, so that only a caller that may
//! wait hands down calls that wait.

ghost use Rattle.std.specs.Thread.{IsSync};
ghost use Rattle.command_words.specs.Limits.{KeepsLimits};
ghost use Rattle.search_run.specs.Batches.{CanAsk, HasRightOutcome, IsTeam};
ghost use Rattle.search_run.specs.Commands.{plan_of};
ghost use Rattle.search_run.specs.Serves.{Serves};

use crate::commands::nearest::answer_nearest;
use crate::commands::one_file::FileText::{Converted, Discords, Saved};
use crate::commands::range::answer_range;
use crate::commands::trial::answer_trial;
use crate::commands::verify::answer_verify;
use crate::commands::windows::answer_windows;
use crate::crew::Crew;
use crate::finding::{Asking, locked, sealed};
use crate::input::pair::SearchFiles;
use crate::status::Status;
use crate::tree::Tree;
use command_words::Command;
use outside::{Files, Gate, NoMemory, Sink};
use query_core::Outcome;
use series_core::Flat;
use std::sync::Wait;
use std::thread::Threads;

// Whether a command is answered without locks: it asks for no certificate, or for the search that is sealed.
fn is_free(command: &Command) -> bool {
    match command {
        Command::Nearest { options, .. } => options.sealed || !options.certificate,
        _ => true,
    }
}

/// Answers one command. It may wait where the command searches over queues with locks.
pub fn answer_waiting<T: Threads + Wait + Sync, F: Files, S: Sink, G: Gate + Sync>(
    crew: &Crew<'_, T, G>,
    command: &Command,
    files: &mut F,
    out: &mut S,
) -> Result<(), Status>
    requires limits { KeepsLimits command.now }
    ensures { Serves F.Files S.Sink (plan_of command.now) files.old files.new out.old out.new result }
{
    if is_free(command) {
        return answer_free(crew, command, files, out);
    }
    let rows = |rows: &Flat, tree: &Tree, query: &[i16], asking: Asking| -> Result<
        Outcome,
        NoMemory,
    >
        requires { IsSync T.row × IsSync G.row × CanAsk rows.now tree.now query.now asking }
        ensures { HasRightOutcome rows.now tree.now query.now asking result }
    { locked(crew, rows, tree, query, asking) };
    answer(crew, &rows, command, files, out)
}

/// Answers one command, and never waits: each team searches over sealed runs.
pub fn answer_free<T: Threads + Sync, F: Files, S: Sink, G: Gate + Sync>(
    crew: &Crew<'_, T, G>,
    command: &Command,
    files: &mut F,
    out: &mut S,
) -> Result<(), Status>
    requires limits { KeepsLimits command.now }
    ensures { Serves F.Files S.Sink (plan_of command.now) files.old files.new out.old out.new result }
{
    let rows = |rows: &Flat, tree: &Tree, query: &[i16], asking: Asking| -> Result<
        Outcome,
        NoMemory,
    >
        requires { IsSync T.row × IsSync G.row × CanAsk rows.now tree.now query.now asking }
        ensures { HasRightOutcome rows.now tree.now query.now asking result }
    { sealed(crew, rows, tree, query, asking) };
    answer(crew, &rows, command, files, out)
}

// Answers one command, whose teams search by these calls.
fn answer<
    T: Threads + Sync,
    F: Files,
    S: Sink,
    G: Gate + Sync,
    L: Fn(&Flat, &Tree, &[i16], Asking) -> Result<Outcome, NoMemory>,
>(
    crew: &Crew<'_, T, G>,
    rows: &L,
    command: &Command,
    files: &mut F,
    out: &mut S,
) -> Result<(), Status>
    requires limits { KeepsLimits command.now }
    requires rows { IsTeam (λ rows. rows) (L.pre rows.now) (L.post rows.now) }
    ensures { Serves F.Files S.Sink (plan_of command.now) files.old files.new out.old out.new result }
{
    match command {
        Command::Nearest {
            series,
            queries,
            options,
        } => {
            let search = SearchFiles {
                series,
                queries,
                options,
            };
            answer_nearest(crew, rows, &search, files, out)
        }
        Command::Range {
            series,
            queries,
            radius,
            options,
        } => {
            let search = SearchFiles {
                series,
                queries,
                options,
            };
            answer_range(crew, &search, *radius, files, out)
        }
        Command::Verify {
            series,
            queries,
            certificate,
            options,
        } => {
            let search = SearchFiles {
                series,
                queries,
                options,
            };
            answer_verify(crew.alloc, &search, certificate, files, out)
        }
        Command::Trial {
            seed,
            count,
            length,
            queries,
            options,
        } => answer_trial(crew, *seed, *count, *length, *queries, options, out),
        Command::Convert { series, options } => Converted.answer(crew, series, options, files, out),
        Command::Save { series, options } => Saved.answer(crew, series, options, files, out),
        Command::Windows {
            series,
            queries,
            step,
            options,
        } => {
            let search = SearchFiles {
                series,
                queries,
                options,
            };
            answer_windows(crew, &search, *step, files, out)
        }
        Command::Discord { series, options } => Discords.answer(crew, series, options, files, out),
    }
}
