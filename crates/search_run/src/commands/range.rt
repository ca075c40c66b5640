//! The command `range`: for each query all series within a radius, by a search of the tree.

ghost use Rattle.std.specs.Prelude.{◌≡◌, length, IfOk};
ghost use Rattle.std.specs.Thread.{IsSync};
ghost use Rattle.command_words.specs.Limits.{OptionsKeepLimits};
ghost use Rattle.series_core.specs.Answer.{within};
ghost use Rattle.search_run.specs.Commands.{range_plan};
ghost use Rattle.search_run.specs.Finding.{IsTreeFor};
ghost use Rattle.search_run.specs.Serves.{Serves, plan_by};
ghost use Rattle.search_run.specs.Texts.{query_text};

use crate::commands::search::{SearchBase, answer_search};
use crate::crew::Crew;
use crate::finding::near;
use crate::input::pair::SearchFiles;
use crate::output::text::query_text;
use crate::status::Status;
use outside::{Files, Gate, NoMemory, Sink};
use std::thread::Threads;

/// Answers `range`: a search whose pieces have for each query all series within the radius.
pub fn answer_range<T: Threads + Sync, F: Files, S: Sink, G: Gate + Sync>(
    crew: &Crew<'_, T, G>,
    search: &SearchFiles<'_>,
    radius: u64,
    files: &mut F,
    out: &mut S,
) -> Result<(), Status>
    requires { OptionsKeepLimits search.now.options.now }
    ensures { Serves F.Files S.Sink (plan_by (λ series queries o. range_plan series queries radius o) search.now)
        files.old files.new out.old out.new result }
{
    let options = search.options;
    let piece_of = |base: &SearchBase, i: u32, query: &[i16]| -> Result<Vec<u8>, NoMemory>
        requires { IsSync T.row × IsSync G.row × IsTreeFor base.now.series.rows base.now.tree
            × (length query.now ≡ base.now.series.rows.points) × OptionsKeepLimits options.now }
        ensures { IfOk result (λ text. text.items
            ≡ query_text base.now.series.labels i (within base.now.series.rows query.now radius)) }
    {
        let pairs = near(
            crew,
            &base.series.rows,
            &base.tree,
            query,
            radius,
            options.workers,
        )?;
        query_text(crew.alloc, i, &base.series.labels, &pairs)
    };
    answer_search(crew, search, &piece_of, files, out)
}
