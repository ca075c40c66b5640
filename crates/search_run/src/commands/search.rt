//! A search over two files: it reads both, builds the tree, and writes for each query the piece that is made for it.
//! What is sought is the caller's: it hands a closure that makes the piece of one query.

ghost use Rattle.std.specs.Prelude.{◌≡◌, ◌≢◌, ℕ, length};
ghost use Rattle.command_words.specs.Limits.{OptionsKeepLimits};
ghost use Rattle.search_run.specs.Traffic.{read_from, wrote_to};
ghost use Rattle.search_run.specs.Ends.{ended};
ghost use Rattle.search_run.specs.declared.status.Status.{Status};
ghost use Rattle.search_run.specs.declared.status.Which.{Which};

use crate::crew::Crew;
use crate::growing::tree_of;
use crate::input::pair::{SearchFiles, read_both};
use crate::output::pieces::write_pieces;
use crate::status::{Status, Which};
use crate::tree::Tree;
use outside::{Files, Gate, NoMemory, Sink};
use series_core::Rows;
use series_file::Loaded;
use std::thread::Threads;

/// What a search goes over.
#[derive(Drop)]
pub struct SearchBase {
    /// The series, with their labels.
    pub series: Loaded,
    /// Their tree.
    pub tree: Tree,
}

ghost use Rattle.search_run.specs.Finding.{EndsMaking, IsSearchBase};

/// Reads both files, builds the tree, and writes for each query the piece that `piece_of` makes of it.
pub fn answer_search<
    T: Threads + Sync,
    F: Files,
    S: Sink,
    G: Gate + Sync,
    P: Fn(&SearchBase, u32, &[i16]) -> Result<Vec<u8>, NoMemory>,
>(
    crew: &Crew<'_, T, G>,
    search: &SearchFiles<'_>,
    piece_of: &P,
    files: &mut F,
    out: &mut S,
) -> Result<(), Status>
    requires limits { OptionsKeepLimits search.now.options.now }
    requires callable { (base : _) (i : ℕ) (q : _) → IsSearchBase search.now.options.now base.now
        → length q.now ≡ base.now.series.rows.points → P.pre piece_of.now base i q }
    ensures answers { EndsMaking (P.post piece_of.now)
        (read_from F.Files files.old files.new)
        (wrote_to S.Sink out.old out.new)
        search.now.series.now search.now.queries.now search.now.options.now (ended result) }
    ensures kept { F.held files.new ≡ F.held files.old }
    ensures reliable { F.reliable files.old → (w : Which) → result ≢ Err (Status.ReadFault w) }
{
    let both = read_both(crew.alloc, files, search)?;
    let tree = tree_of(
        crew,
        &both.series.rows,
        search.options,
        both.queries.rows.count(),
    )?;
    let base = SearchBase {
        series: both.series,
        tree,
    };
    write_pieces(&base, piece_of, &both.queries.rows, out)?;
    Ok(())
}
