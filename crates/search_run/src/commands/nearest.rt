//! The command `nearest`: for each query its k nearest, by a search of the tree, and where it is asked for a certificate.
//! The tree is built, or where an index is named, loaded.

ghost use Rattle.std.specs.Prelude.{◌≡◌, ◌≤◌, true, false, length, IfOk, IfErr, OnOk};
ghost use Rattle.command_words.specs.Limits.{OptionsKeepLimits};
ghost use Rattle.search_run.specs.Batches.{IsTeam};
ghost use Rattle.search_run.specs.Commands.{indexed_plan, nearest_plan, pieces_by};
ghost use Rattle.search_run.specs.Finding.{IsSearchBase, IsTreeFor};
ghost use Rattle.search_run.specs.Nearests.{IsCertifiedPiece, IsNearestPiece};
ghost use Rattle.search_run.specs.Serves.{Serves, plan_by};
ghost use Rattle.search_run.specs.Stops.{Stops};
ghost use Rattle.search_run.specs.Texts.{AppendsPieces};
ghost use Rattle.search_run.specs.Traffic.{wrote_to};

use crate::answers::{Telling, write_answers};
use crate::batch::Batch;
use crate::commands::search::{SearchBase, answer_search};
use crate::crew::Crew;
use crate::finding::{Asking, asking_of};
use crate::growing::tree_of;
use crate::input::index_file::load_index;
use crate::input::pair::{Both, SearchFiles, read_alike, read_both};
use crate::output::text::query_text;
use crate::status::Status;
use crate::tree::Tree;
use certificate::print;
use command_words::{Options, Text};
use outside::{Files, Gate, NoMemory, Sink};
use query_core::Outcome;
use series_core::{Flat, Rows};
use std::alloc::Global;
use std::thread::Threads;

/// A search for the nearest, and who does it.
#[derive(Drop)]
struct Nearest<'a, T, G, P> {
    // Threads, memory and the gate.
    crew: &'a Crew<'a, T, G>,
    // How all workers search one query for a certificate.
    team: &'a P,
    // The two files and the options.
    search: &'a SearchFiles<'a>,
}

/// Answers `nearest`: a search whose pieces have for each query its k nearest, and their certificate where it is asked for.
pub fn answer_nearest<
    T: Threads + Sync,
    F: Files,
    S: Sink,
    G: Gate + Sync,
    P: Fn(&Flat, &Tree, &[i16], Asking) -> Result<Outcome, NoMemory>,
>(
    crew: &Crew<'_, T, G>,
    team: &P,
    search: &SearchFiles<'_>,
    files: &mut F,
    out: &mut S,
) -> Result<(), Status>
    requires limits { OptionsKeepLimits search.now.options.now }
    requires team { IsTeam (λ rows. rows) (P.pre team.now) (P.post team.now) }
    ensures { Serves F.Files S.Sink (plan_by nearest_plan search.now) files.old files.new out.old out.new result }
{
    let by = Nearest { crew, team, search };
    match &search.options.index {
        Some(index) => by.indexed(index, files, out),
        None if search.options.certificate => by.certified(files, out),
        None => by.plain(files, out),
    }
}

impl<
    T: Threads + Sync,
    G: Gate + Sync,
    P: Fn(&Flat, &Tree, &[i16], Asking) -> Result<Outcome, NoMemory>,
> Nearest<'_, T, G, P> {
    // Answers without certificates.
    fn plain<F: Files, S: Sink>(&self, files: &mut F, out: &mut S) -> Result<(), Status>
        requires limits { OptionsKeepLimits self.now.search.now.options.now }
        ensures { Serves F.Files S.Sink (plan_by (pieces_by false) self.now.search.now) files.old files.new out.old out.new result }
    {
        let both = read_both(self.crew.alloc, files, self.search)?;
        let tree = tree_of(
            self.crew,
            &both.series.rows,
            self.search.options,
            both.queries.rows.count(),
        )?;
        self.write(&both, &tree, out)?;
        Ok(())
    }

    // Answers over the saved index of this name.
    fn indexed<F: Files, S: Sink>(
        &self,
        index: &Text,
        files: &mut F,
        out: &mut S,
    ) -> Result<(), Status>
        requires limits { OptionsKeepLimits self.now.search.now.options.now }
        ensures { Serves F.Files S.Sink (plan_by (indexed_plan index.now) self.now.search.now) files.old files.new out.old out.new result }
    {
        let both = read_alike(self.crew.alloc, files, self.search)?;
        let workers = self.search.options.workers;
        let tree = load_index(
            self.crew,
            files,
            index.text.as_str(),
            &both.series.rows,
            workers,
            both.queries.rows.count(),
        )?;
        self.write(&both, &tree, out)?;
        Ok(())
    }

    // Writes for each query its k nearest, by a search of this tree.
    fn write<S: Sink>(&self, both: &Both, tree: &Tree, out: &mut S) -> Result<(), Status>
        requires limits { OptionsKeepLimits self.now.search.now.options.now }
        requires tree { IsTreeFor both.now.series.rows tree.now }
        requires lengths { both.now.series.rows.points ≡ both.now.queries.rows.points }
        ensures ok { OnOk result (AppendsPieces (IsNearestPiece false self.now.search.now.options.now both.now.series)
            both.now.queries.rows.series (S.written out.old) (S.written out.new)) }
        ensures stops { IfErr result (Stops (IsNearestPiece false self.now.search.now.options.now both.now.series)
            both.now.queries.rows.series (wrote_to S.Sink out.old out.new)) }
        ensures counts { S.faults out.old ≤ S.faults out.new }
    {
        let options = self.search.options;
        let (rows, queries) = (&both.series.rows, &both.queries.rows);
        let batch = Batch::new(rows, tree, queries, options.k, options.workers);
        let telling = Telling::Nearest(&both.series.labels);
        write_answers(self.crew, &batch, &telling, out)
    }

    // Answers with certificates.
    fn certified<F: Files, S: Sink>(&self, files: &mut F, out: &mut S) -> Result<(), Status>
        requires limits { OptionsKeepLimits self.now.search.now.options.now }
        requires team { IsTeam (λ rows. rows) (P.pre self.now.team.now) (P.post self.now.team.now) }
        ensures { Serves F.Files S.Sink (plan_by (pieces_by true) self.now.search.now) files.old files.new out.old out.new result }
    {
        let alloc = self.crew.alloc;
        let team = self.team;
        let options = self.search.options;
        let piece_of = |base: &SearchBase, i: u32, query: &[i16]| -> Result<Vec<u8>, NoMemory>
            requires { IsTeam (λ rows. rows) (P.pre team.now) (P.post team.now) × IsSearchBase options.now base.now × OptionsKeepLimits options.now
                × (length query.now ≡ base.now.series.rows.points) }
            ensures { IfOk result (λ text. IsCertifiedPiece options.entry.now base.now.series i query.now text.items) }
        { certified_piece(alloc, team, options, base, i, query) };
        answer_search(self.crew, self.search, &piece_of, files, out)
    }
}

// The piece of query i: its answers, and behind them the lines that certify them.
fn certified_piece<P: Fn(&Flat, &Tree, &[i16], Asking) -> Result<Outcome, NoMemory>>(
    alloc: Global,
    team: &P,
    options: &Options,
    base: &SearchBase,
    i: u32,
    query: &[i16],
) -> Result<Vec<u8>, NoMemory>
    requires team { IsTeam (λ rows. rows) (P.pre team.now) (P.post team.now) }
    requires base { IsSearchBase options.now base.now }
    requires limits { OptionsKeepLimits options.now }
    requires length { length query.now ≡ base.now.series.rows.points }
    ensures { IfOk result (λ text. IsCertifiedPiece options.now base.now.series i query.now text.items) }
{
    let (rows, tree) = (&base.series.rows, &base.tree);
    let outcome = team(rows, tree, query, asking_of(options))?;
    let mut text = query_text(alloc, i, &base.series.labels, &outcome.pairs)?;
    let lines = print(alloc, &tree.index, &outcome)?;
    text.extend_from_slice(&lines)?;
    Ok(text)
}
