//! Building the tree of a collection, by the options of a command, and the text of such a tree. It has no labels.

ghost use Rattle.std.specs.Prelude.{◌≡◌, ◌≤◌, IfOk};
ghost use Rattle.command_words.specs.Limits.{OptionsKeepLimits};
ghost use Rattle.segment_sums.specs.Division.{IsDivision};
ghost use Rattle.search_limits.specs.declared.numbers.TheConstants.{MOST_WORKERS};
ghost use Rattle.subtree_build.specs.Fits.{Fits, IsTreeOf};
ghost use Rattle.subtree_build.specs.Index.{IsIndex};
ghost use Rattle.search_run.specs.Finding.{IsBuiltOf, IsTreeFor};
ghost use Rattle.search_run.specs.Indexes.{IsTreeText};
ghost use Rattle.search_run.specs.Layouts.{settings_of};
ghost use Rattle.search_run.specs.Plans.{HasSegments};

use crate::crew::Crew;
use crate::layout::layout_of;
use crate::tree::Tree;
use crate::tuning::LEAST_SEARCHES_FOR_TABLES;
use command_words::Options;
use outside::{Gate, NoMemory};
use saved_index::save;
use series_core::{Flat, Rows};
use std::thread::Threads;
use subtree_build::{Index, Settings, build, build_bare};

/// Builds the tree of series with the asked segments, leaf size, breakpoints and workers. Means and codes are made beside it where so many
/// searches pay for them.
pub fn tree_of<T: Threads + Sync, R: Rows + Sync, G: Gate + Sync>(
    crew: &Crew<'_, T, G>,
    rows: &R,
    options: &Options,
    searches: u32,
) -> Result<Tree, NoMemory>
    requires limits { OptionsKeepLimits options.now }
    requires segments { HasSegments options.now.segments (R.collection rows.now).points }
    ensures fits { IfOk result (IsTreeFor (R.collection rows.now)) }
    ensures built { IfOk result (IsBuiltOf (R.collection rows.now)) }
    ensures index { IfOk result (λ tree. IsIndex tree.index) }
    ensures cuts { IfOk result (λ tree. IsDivision tree.settings.layout.cuts) }
    ensures settings { IfOk result (λ tree. tree.settings ≡ settings_of (R.collection rows.now).points options.now) }
{
    let settings = Settings {
        layout: layout_of(rows.length(), options.segments, options.table),
        leaf_size: options.leaf,
    };
    let index = index_of(crew, rows, &settings, options.workers, searches)?;
    // for the facts that the index is one, and that the cuts divide a series
    let _leaves = index.leaf_count();
    let _segments = settings.layout.cuts.segments();
    Ok(Tree { index, settings })
}

// The index of the series: the tree, with what so many searches pay for beside it.
fn index_of<T: Threads + Sync, R: Rows + Sync, G: Gate + Sync>(
    crew: &Crew<'_, T, G>,
    rows: &R,
    settings: &Settings,
    workers: u32,
    searches: u32,
) -> Result<Index, NoMemory>
    requires length { settings.now.layout.cuts.row_length ≡ (R.collection rows.now).points }
    requires workers { (1 ≤ workers) × (workers ≤ MOST_WORKERS) }
    ensures tree { IfOk result (IsTreeOf (R.collection rows.now) settings.now.layout settings.now.leaf_size) }
    ensures fits { IfOk result (Fits (R.collection rows.now) settings.now.layout) }
{
    if searches < LEAST_SEARCHES_FOR_TABLES {
        build_bare(crew.rt, crew.alloc, rows, settings, workers, crew.gate)
    } else {
        build(crew.rt, crew.alloc, rows, settings, workers, crew.gate)
    }
}

/// The text of the tree of these series, as it is saved. What stands beside a tree is no part of its text.
pub fn tree_text<T: Threads + Sync, G: Gate + Sync>(
    crew: &Crew<'_, T, G>,
    rows: &Flat,
    options: &Options,
) -> Result<Vec<u8>, NoMemory>
    requires options { OptionsKeepLimits options.now }
    requires segments { HasSegments options.now.segments rows.now.points }
    ensures { IfOk result (λ text. IsTreeText rows.now (settings_of rows.now.points options.now) text.items) }
{
    let tree = tree_of(crew, rows, options, 0)?;
    save(crew.alloc, &tree.settings, rows.count(), &tree.index)
}
