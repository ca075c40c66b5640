//! The commands that read one series file and write one text of what it holds: `convert`, `save` and `discord`.
//! They differ in that text alone. The tree of a file's series and their discords are written without its labels.

ghost use Rattle.std.specs.Prelude.{◌≡◌, ◌≢◌, ◌⊎◌, Option, IfOk, IfErr};
ghost use Rattle.outside.specs.Files.{Held};
ghost use Rattle.command_words.specs.Limits.{OptionsKeepLimits};
ghost use Rattle.search_run.specs.Commands.{file_plan, file_rest};
ghost use Rattle.search_run.specs.Pairs.{HasLabels};
ghost use Rattle.search_run.specs.Plans.{Refuses, Writes};
ghost use Rattle.search_run.specs.Serves.{Serves};
ghost use Rattle.search_run.specs.Traffic.{Reading};
ghost use Rattle.search_run.specs.declared.status.Status.{Status};
ghost use Rattle.search_run.specs.declared.status.Which.{Which};

use crate::crew::Crew;
use crate::finding::farthest;
use crate::growing::{tree_of, tree_text};
use crate::input::file::{form_of, load};
use crate::input::lengths::check_segments;
use crate::output::converted::converted;
use crate::output::discords::discord_text;
use crate::status::{Status, Which};
use command_words::{Options, Text};
use outside::{Files, Gate, Sink, write_whole};
use series_core::Rows;
use series_file::Loaded;
use std::thread::Threads;

/// What is written of the series of one file.
#[derive(Clone, Copy, Debug, PartialEq, Eq)]
pub enum FileText {
    /// The series themselves, each with its label, or where they have none, with its number.
    Converted,
    /// Their tree, as the text of an index.
    Saved,
    /// The series whose nearest other is farthest, a line each.
    Discords,
}

impl FileText {
    /// Reads the series file, and writes this of its series.
    pub fn answer<T: Threads + Sync, F: Files, S: Sink, G: Gate + Sync>(
        self,
        crew: &Crew<'_, T, G>,
        series: &Text,
        options: &Options,
        files: &mut F,
        out: &mut S,
    ) -> Result<(), Status>
        requires { OptionsKeepLimits options.now }
        ensures { Serves F.Files S.Sink (file_plan self series.now options.now) files.old files.new out.old out.new result }
    {
        let form = form_of(options.raw);
        let loaded = load(crew.alloc, files, series.text.as_str(), Which::Series, form)?;
        let text = self.text(crew, &loaded, options)?;
        write_whole(out, &text)?;
        Ok(())
    }

    /// The text of what the file holds, or why it cannot be written.
    fn text<T: Threads + Sync, G: Gate + Sync>(
        self,
        crew: &Crew<'_, T, G>,
        loaded: &Loaded,
        options: &Options,
    ) -> Result<Vec<u8>, Status>
        requires options { OptionsKeepLimits options.now }
        requires labels { HasLabels loaded.now }
        ensures right { (held : Option Held)
            → IfOk result (λ text. Writes held (file_rest self options.now loaded.now) text.items) }
        ensures refused { (reading : Reading) → IfErr result (λ status. (status ≡ Status.Memory)
            ⊎ Refuses reading (file_rest self options.now loaded.now) status) }
        ensures reads_nothing { (w : Which) → result ≢ Err (Status.ReadFault w) }
    {
        let rows = &loaded.rows;
        match self {
            FileText::Converted => Ok(converted(crew.alloc, loaded)?),
            FileText::Saved => {
                check_segments(options.segments, rows.length())?;
                Ok(tree_text(crew, rows, options)?)
            }
            FileText::Discords => {
                check_segments(options.segments, rows.length())?;
                let tree = tree_of(crew, rows, options, rows.count())?;
                let found = farthest(crew, rows, &tree, options)?;
                Ok(discord_text(crew.alloc, &found)?)
            }
        }
    }
}
