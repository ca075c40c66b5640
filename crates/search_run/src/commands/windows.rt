//! The command `windows`: for each query the nearest windows of one long series, chosen so that they lie apart.
//! The windows are lent, not copied. So many of the nearest are sought that the choice from them is that from all.

ghost use Rattle.std.specs.Prelude.{◌≡◌, ◌≢◌, ◌≤◌, length, IfOk, IfErr};
ghost use Rattle.command_words.specs.Limits.{OptionsKeepLimits};
ghost use Rattle.command_words.specs.Options.{windows_needed};
ghost use Rattle.series_core.specs.declared.best.TheConstants.{MAX_BEST};
ghost use Rattle.series_file.specs.Stages.{IsForm};
ghost use Rattle.search_run.specs.Loads.{form_of};
ghost use Rattle.search_run.specs.Plans.{Refuses};
ghost use Rattle.search_run.specs.Serves.{Serves, plan_by};
ghost use Rattle.search_run.specs.Traffic.{read_from};
ghost use Rattle.search_run.specs.Windows.{FitLong, HasFew, long_plan, nothing_behind, windows_plan};
ghost use Rattle.search_run.specs.declared.status.Status.{Status};
ghost use Rattle.search_run.specs.declared.status.Which.{Which};

use crate::answers::{Telling, write_answers};
use crate::batch::Batch;
use crate::crew::Crew;
use crate::growing::tree_of;
use crate::input::file::{form_of, load};
use crate::input::lengths::check_segments;
use crate::input::pair::{Both, SearchFiles};
use crate::status::{Status, Which};
use outside::{Files, Gate, Sink};
use series_core::Rows;
use series_file::Form;
use std::alloc::Global;
use std::thread::Threads;
use window_rows::Windows;

/// Answers `windows`: reads the long series and the queries, and writes for each query the windows chosen from the nearest,
/// which begin a whole number of `step` values from the front.
pub fn answer_windows<T: Threads + Sync, F: Files, S: Sink, G: Gate + Sync>(
    crew: &Crew<'_, T, G>,
    search: &SearchFiles<'_>,
    step: u32,
    files: &mut F,
    out: &mut S,
) -> Result<(), Status>
    requires limits { OptionsKeepLimits search.now.options.now }
    requires step { 1 ≤ step }
    requires needed { windows_needed search.now.options.now ≤ MAX_BEST }
    ensures { Serves F.Files S.Sink (plan_by (λ series queries o. windows_plan series queries step o) search.now)
        files.old files.new out.old out.new result }
{
    let options = search.options;
    let both = read_long(crew.alloc, files, search)?;
    let windows = Windows::new(both.series.rows.values(), both.queries.rows.length(), step);
    let tree = tree_of(crew, &windows, options, both.queries.rows.count())?;
    let needed = options.windows_needed();
    let batch = Batch::new(&windows, &tree, &both.queries.rows, needed, options.workers);
    let telling = Telling::Apart(options.apart, options.k);
    write_answers(crew, &batch, &telling, out)?;
    Ok(())
}

// Reads the file of the long series, whose values stand alone, and then that of the queries, and compares the length of a
// window, which is that of the queries, with the asked segments.
fn read_long<F: Files>(
    alloc: Global,
    files: &mut F,
    search: &SearchFiles<'_>,
) -> Result<Both, Status>
    requires { IsForm (form_of search.now.options.now.raw) }
    ensures found { IfOk result (λ both. FitLong (F.held files.old) search.now.series.now search.now.queries.now
        search.now.options.now both.series both.queries) }
    ensures few { IfOk result (λ both. HasFew both.series) }
    ensures refused { IfErr result (Refuses (read_from F.Files files.old files.new)
        (long_plan search.now.series.now search.now.queries.now search.now.options.now nothing_behind)) }
    ensures kept { F.held files.new ≡ F.held files.old }
    ensures reliable { F.reliable files.old → (w : Which) → result ≢ Err (Status.ReadFault w) }
{
    let name = search.series;
    let series = load(
        alloc,
        files,
        name.text.as_str(),
        Which::Series,
        Form::Raw(1),
    )?;
    let name = search.queries;
    let form = form_of(search.options.raw);
    let queries = load(alloc, files, name.text.as_str(), Which::Queries, form)?;
    check_segments(search.options.segments, queries.rows.length())?;
    Ok(Both { series, queries })
}
