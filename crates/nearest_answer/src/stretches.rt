//! Stretches: what a worker draws at a time where no leaves are listed. Where codes tell members apart it is some leaves in a row, and
//! else it is some rows in a row. Each series is in one stretch alone.
ghost use Rattle.std.specs.Prelude.{◌≡◌, ◌*◌, ◌<◌, length};
ghost use Rattle.nearest_answer.specs.declared.telling.ApartBy.TheVariants.{Means, Codes, Nothing};
ghost use Rattle.nearest_answer.specs.Stretches.{IsCut, item_count, stretch, stretch_size};
ghost use Rattle.search_task.specs.Questions.{leaf_series};
ghost use Rattle.search_task.specs.Scanning.{AreScanned};

use crate::sweep::sweep;
use crate::telling::ApartBy;
use crate::tuning::{LEAVES_OF_STRETCH, ROWS_OF_STRETCH};
use search_task::{Search, most_to_add};
use series_core::{KBest, Rows};

/// How many stretches there are.
pub(crate) fn stretch_count<R: Rows>(search: &Search<'_, R>, by: ApartBy) -> u32
    ensures { IsCut search.now by result }
{
    match by {
        ApartBy::Means | ApartBy::Codes => search.leaf_count().div_ceil(LEAVES_OF_STRETCH),
        ApartBy::Nothing => search.task().count().div_ceil(ROWS_OF_STRETCH),
    }
}

/// Scans the series of a stretch with this limit into a list.
pub(crate) fn scan_stretch<R: Rows>(
    search: &Search<'_, R>,
    by: ApartBy,
    number: u32,
    limit: u64,
    list: &mut KBest,
)
    requires number { number * stretch_size by < item_count search.now by }
    requires k { list.old.k ≡ search.now.question.k }
    ensures k { list.new.k ≡ search.now.question.k }
    ensures pairs { AreScanned search.now.question limit (stretch search.now by number) list.old.pairs list.new.pairs }
{
    match by {
        ApartBy::Means => sweep_leaves(search, number, limit, list),
        ApartBy::Codes => sweep_leaves(search, number, limit, list),
        ApartBy::Nothing => scan_rows(search, number, limit, list),
    }
}

// Scans some leaves in a row by the codes of their members' rows alone.
fn sweep_leaves<R: Rows>(search: &Search<'_, R>, number: u32, limit: u64, list: &mut KBest)
    requires number { number * 256 < length search.now.index.leaves }
    requires k { list.old.k ≡ search.now.question.k }
    ensures k { list.new.k ≡ search.now.question.k }
    ensures pairs { AreScanned search.now.question limit (stretch search.now Codes number) list.old.pairs list.new.pairs }
{
    // for the fact that the list is one: in order, and no longer than its limit
    let _held = list.pairs();
    let leaves = search.leaf_count();
    let first = number * LEAVES_OF_STRETCH;
    let end = first + LEAVES_OF_STRETCH.min(leaves - first);
    for leaf in first..end {
        sweep_leaf(search, leaf, limit, list);
    }
}

// Scans a leaf by the codes of its members' rows alone, or without codes as any leaf.
fn sweep_leaf<R: Rows>(search: &Search<'_, R>, leaf: u32, limit: u64, list: &mut KBest)
    requires leaf { leaf < length search.now.index.leaves }
    requires k { list.old.k ≡ search.now.question.k }
    ensures k { list.new.k ≡ search.now.question.k }
    ensures pairs { AreScanned search.now.question limit (leaf_series search.now.index leaf) list.old.pairs list.new.pairs }
{
    let index = search.index();
    if index.has_codes() {
        sweep(
            search.task(),
            index.leaf_members(leaf),
            index.leaf_codes(leaf),
            limit,
            list,
        )
    } else {
        search.scan_leaf(leaf, limit, list)
    }
}

// Scans some rows in the order of their numbers.
fn scan_rows<R: Rows>(search: &Search<'_, R>, number: u32, limit: u64, list: &mut KBest)
    requires number { number * 64 < length search.now.question.collection.series }
    requires k { list.old.k ≡ search.now.question.k }
    ensures k { list.new.k ≡ search.now.question.k }
    ensures pairs { AreScanned search.now.question limit (stretch search.now Nothing number) list.old.pairs list.new.pairs }
{
    let task = search.task();
    let first = number * ROWS_OF_STRETCH;
    let end = first + ROWS_OF_STRETCH.min(task.count() - first);
    let mut most = most_to_add(limit, list);
    for row in first..end {
        most = task.measure(row, limit, most, list);
    }
}
