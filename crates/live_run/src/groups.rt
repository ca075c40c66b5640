//! The groups of a script, one after another: the files of a group are loaded, its batch is appended while its queries are asked, and
//! then its text is written whole.

ghost use Rattle.std.specs.Prelude.{◌≡◌, ◌≤◌, length};
ghost use Rattle.std.specs.List.{AllByRecursion};
ghost use Rattle.live_script.specs.Grammar.{IsGroup, script_lines};
ghost use Rattle.live_run.specs.Ends.{GroupsEnd, ended};
ghost use Rattle.live_run.specs.Loads.{most_bytes};
ghost use Rattle.run_traffic.specs.Traffic.{EndsReading, Reading, read_from, wrote_to};

use crate::dialogue::{Dialogue, begun, length_of};
use crate::group::load_group;
use crate::status::LiveStatus;
use live_script::Group;
use outside::{Files, Gate, Sink, write_whole};
use series_core::Rows;
use std::alloc::Global;
use std::sync::Wait;
use std::thread::Threads;

/// Takes each group in order. The text of a group is written before the next one's files are opened.
pub fn run_groups<H: Threads + Wait + Sync, F: Files, S: Sink, G: Gate + Sync>(
    rt: &H,
    alloc: Global,
    groups: &[Group],
    files: &mut F,
    out: &mut S,
    gate: &G,
) -> Result<(), LiveStatus>
    requires groups { AllByRecursion IsGroup groups.now }
    requires few { length (script_lines groups.now) ≤ most_bytes }
    ensures ends { (whole : Reading)
        → EndsReading whole (read_from F.Files files.old files.new)
        → GroupsEnd whole (wrote_to S.Sink out.old out.new) groups.now (ended result) }
    ensures kept { F.held files.new ≡ F.held files.old }
{
    let mut dialogue: Option<Dialogue> = None;
    for at in 0..groups.len() {
        let contents = load_group(alloc, files, &groups[at], length_of(&dialogue))?;
        let points = contents.batch.length();
        let current = begun(alloc, dialogue, points)?;
        let (next, text) = current.take(rt, alloc, contents, gate, at as u64)?;
        write_whole(out, &text)?;
        dialogue = Some(next);
    }
    if let Some(dialogue) = dialogue {
        dialogue.close();
    }
    Ok(())
}
