//! The two files of a search: the series first, then the queries, then whether they fit each other and the options.

ghost use Rattle.std.specs.Prelude.{◌≡◌, ◌≢◌, ◌≤◌, IfOk, IfErr};
ghost use Rattle.series_file.specs.Stages.{IsForm};
ghost use Rattle.search_run.specs.Traffic.{read_from};
ghost use Rattle.search_run.specs.Loads.{form_of};
ghost use Rattle.search_run.specs.Pairs.{Alike, Fit, files_plan, lengths_plan};
ghost use Rattle.search_run.specs.Plans.{Refuses};
ghost use Rattle.search_run.specs.declared.status.Status.{Status};
ghost use Rattle.search_run.specs.declared.status.Which.{Which};

use crate::input::file::{form_of, load};
use crate::input::lengths::{check_lengths, check_segments};
use crate::status::{Status, Which};
use command_words::{Options, Text};
use outside::Files;
use series_core::Rows;
use series_file::Loaded;
use std::alloc::Global;

/// The names of the two files of a search, and its options.
#[derive(Drop)]
pub struct SearchFiles<'a> {
    /// The file of the series.
    pub series: &'a Text,
    /// The file of the queries.
    pub queries: &'a Text,
    /// How both files are spelled, and how the search is done.
    pub options: &'a Options,
}

/// The series and the queries.
#[derive(Drop)]
pub struct Both {
    /// The collection that is searched.
    pub series: Loaded,
    /// The queries.
    pub queries: Loaded,
}

/// Reads the file of the series and then that of the queries, and compares their lengths with each other and with
/// the asked segments.
pub fn read_both<F: Files>(
    alloc: Global,
    files: &mut F,
    search: &SearchFiles<'_>,
) -> Result<Both, Status>
    requires { IsForm (form_of search.now.options.now.raw) }
    ensures found { IfOk result (λ both. Fit (F.held files.old) search.now.series.now search.now.queries.now
        search.now.options.now both.series both.queries) }
    ensures refused { IfErr result (Refuses (read_from F.Files files.old files.new)
        (files_plan search.now.series.now search.now.queries.now search.now.options.now)) }
    ensures kept { F.held files.new ≡ F.held files.old }
    ensures counts { (F.faults files.old ≤ F.faults files.new) × (F.misses files.old ≤ F.misses files.new) }
    ensures reliable { F.reliable files.old → ((w : Which) → result ≢ Err (Status.ReadFault w)) × F.reliable files.new }
{
    let both = read_alike(alloc, files, search)?;
    check_segments(search.options.segments, both.series.rows.length())?;
    Ok(both)
}

/// Reads the file of the series and then that of the queries, and compares their lengths with each other.
pub fn read_alike<F: Files>(
    alloc: Global,
    files: &mut F,
    search: &SearchFiles<'_>,
) -> Result<Both, Status>
    requires { IsForm (form_of search.now.options.now.raw) }
    ensures found { IfOk result (λ both. Alike (F.held files.old) search.now.series.now search.now.queries.now
        search.now.options.now both.series both.queries) }
    ensures refused { IfErr result (Refuses (read_from F.Files files.old files.new)
        (lengths_plan search.now.series.now search.now.queries.now search.now.options.now)) }
    ensures kept { F.held files.new ≡ F.held files.old }
    ensures counts { (F.faults files.old ≤ F.faults files.new) × (F.misses files.old ≤ F.misses files.new) }
    ensures reliable { F.reliable files.old → ((w : Which) → result ≢ Err (Status.ReadFault w)) × F.reliable files.new }
{
    let form = form_of(search.options.raw);
    let name = search.series;
    let series = load(alloc, files, name.text.as_str(), Which::Series, form)?;
    let name = search.queries;
    let queries = load(alloc, files, name.text.as_str(), Which::Queries, form)?;
    check_lengths(series.rows.length(), queries.rows.length())?;
    Ok(Both { series, queries })
}
