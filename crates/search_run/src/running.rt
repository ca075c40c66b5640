//! The whole run: the words, the one command that they ask for, and at last the line that tells how it ended.
//! What goes wrong first decides the status.

ghost use Rattle.std.specs.Prelude.{◌≡◌, ◌≢◌, IfOk, IfErr, map, string_bytes};
ghost use Rattle.command_words.specs.Absence.{HoldsAbsence, IndexStandsAlone};
ghost use Rattle.command_words.specs.Limits.{KeepsLimits};
ghost use Rattle.command_words.specs.Settings.{HasSettings, name_of, options_of};
ghost use Rattle.command_words.specs.declared.command.Command.{Command};
ghost use Rattle.run_traffic.specs.Traffic.{Tells, read_from, wrote_to};
ghost use Rattle.search_run.specs.Commands.{CanAnswer, SearchesWithoutLocks, plan_of};
ghost use Rattle.search_run.specs.Ends.{Answers, CanSearch, Ends, Finishes, IsAnswered, IsFaultless};
ghost use Rattle.search_run.specs.Ends.{NoCommand, TellsCause, TellsFault, ended};
ghost use Rattle.search_run.specs.Plans.{HasFault};
ghost use Rattle.search_run.specs.Status.{fault_line};
ghost use Rattle.search_run.specs.Verified.{Certifies};
ghost use Rattle.search_run.specs.declared.status.Status.{Status};
ghost use Rattle.search_run.specs.declared.status.Which.{Which};

use crate::crew::Crew;
use crate::output::tell::tell;
use crate::serving::{answer_free, answer_waiting};
use crate::status::{Status, Which};
use command_words::{Command, WordsError, parse_words};
use outside::{Files, Gate, Sink};
use std::alloc::Global;
use std::sync::Wait;
use std::thread::Threads;

/// Runs the program on the words of a command line: answers go to `out`, and to `err` a line where it failed.
/// `files` is where names are opened, `rt` gives threads, and `gate` comes before each turn of a worker. The status
/// tells how it ended. It may wait where a command searches over queues with locks.
pub fn run<T: Threads + Wait + Sync, F: Files, S: Sink, E: Sink, G: Gate + Sync>(
    rt: &T,
    alloc: Global,
    words: &[String],
    files: &mut F,
    out: &mut S,
    err: &mut E,
    gate: &G,
) -> Status
    ensures ends { Ends (map string_bytes words.now)
        (read_from F.Files files.old files.new)
        (wrote_to S.Sink out.old out.new) result }
    ensures complete { (command : Command) → CanSearch (map string_bytes words.now) (F.held files.old) command
        → Finishes (F.held files.old) command (F.faults files.old) (F.faults files.new)
        (S.faults out.old) (S.faults out.new) result }
    ensures valid { (command : Command) → CanSearch (map string_bytes words.now) (F.held files.old) command
        → IsFaultless (F.held files.old) command
        → IsAnswered (F.faults files.old) (F.faults files.new) (S.faults out.old) (S.faults out.new) result }
    ensures exact { (command : Command) → CanSearch (map string_bytes words.now) (F.held files.old) command
        → (told : Status) → HasFault (F.held files.old) (plan_of command) told
        → TellsFault (F.faults files.old) (F.faults files.new) told result }
    ensures cause { TellsCause result }
    // What `nearest` wrote with certificates is a certificate that holds.
    ensures certifies { (command : Command) → HasSettings (map string_bytes words.now) command
        → Certifies (F.held files.old) command (wrote_to S.Sink out.old out.new) result }
    ensures told { Tells (fault_line result) (E.written err.old) (E.written err.new) (E.faults err.old) (E.faults err.new) }
    ensures kept { F.held files.new ≡ F.held files.old }
    ensures reliable { F.reliable files.old → (w : Which) → result ≢ Status.ReadFault w }
{
    let crew = Crew { rt, alloc, gate };
    match ask(alloc, words) {
        Ok(command) => {
            let status = ended(answer_waiting(&crew, &command, files, out));
            tell(err, &status);
            status
        }
        Err(status) => {
            tell(err, &status);
            status
        }
    }
}

/// Runs one command, as `run` does once it has read the words: answers go to `out`, and to `err` a line where it
/// failed. It never waits, and it never ends with `Usage`.
pub fn run_free<T: Threads + Sync, F: Files, S: Sink, E: Sink, G: Gate + Sync>(
    rt: &T,
    alloc: Global,
    command: &Command,
    files: &mut F,
    out: &mut S,
    err: &mut E,
    gate: &G,
) -> Status
    requires limits { KeepsLimits command.now }
    requires absence { HoldsAbsence (name_of command.now) (options_of command.now) }
    requires alone { IndexStandsAlone (options_of command.now) }
    requires free { SearchesWithoutLocks command.now }
    ensures answers { Answers
        (read_from F.Files files.old files.new)
        (wrote_to S.Sink out.old out.new) command.now result }
    ensures not_usage { result ≢ Status.Usage }
    ensures complete { CanAnswer (F.held files.old) command.now
        → Finishes (F.held files.old) command.now (F.faults files.old) (F.faults files.new)
        (S.faults out.old) (S.faults out.new) result }
    ensures valid { CanAnswer (F.held files.old) command.now → IsFaultless (F.held files.old) command.now
        → IsAnswered (F.faults files.old) (F.faults files.new) (S.faults out.old) (S.faults out.new) result }
    ensures exact { CanAnswer (F.held files.old) command.now
        → (told : Status) → HasFault (F.held files.old) (plan_of command.now) told
        → TellsFault (F.faults files.old) (F.faults files.new) told result }
    ensures cause { TellsCause result }
    ensures certifies { Certifies (F.held files.old) command.now
        (wrote_to S.Sink out.old out.new) result }
    ensures told { Tells (fault_line result) (E.written err.old) (E.written err.new) (E.faults err.old) (E.faults err.new) }
    ensures kept { F.held files.new ≡ F.held files.old }
    ensures reliable { F.reliable files.old → (w : Which) → result ≢ Status.ReadFault w }
{
    let crew = Crew { rt, alloc, gate };
    let status = ended(answer_free(&crew, command, files, out));
    tell(err, &status);
    status
}

// The command that the words ask for.
fn ask(alloc: Global, words: &[String]) -> Result<Command, Status>
    ensures asks { IfOk result (HasSettings (map string_bytes words.now)) }
    ensures limits { IfOk result KeepsLimits }
    ensures alone { IfOk result (λ command. IndexStandsAlone (options_of command)) }
    ensures same { (command : Command) → HasSettings (map string_bytes words.now) command
        → IfOk result (λ c. c ≡ command) }
    ensures refused { IfErr result (NoCommand (map string_bytes words.now)) }
{
    match parse_words(alloc, words) {
        Ok(command) => Ok(command),
        Err(WordsError::Usage) => Err(Status::Usage),
        Err(WordsError::NoMemory) => Err(Status::Memory),
    }
}

// The status of work that ended so.
fn ended(work: Result<(), Status>) -> Status
    ensures { result ≡ ended work }
{
    match work {
        Ok(()) => Status::Done,
        Err(status) => status,
    }
}
