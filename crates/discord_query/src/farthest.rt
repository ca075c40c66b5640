//! The k discords: a team of workers finds their numbers, and each of these is then reported with its nearest other.
ghost use Rattle.std.specs.Prelude.{◌≡◌, ◌≤◌, IfOk};
ghost use Rattle.std.specs.List.{flat_map};
ghost use Rattle.subtree_build.specs.Fits.{Fits};
ghost use Rattle.discord_query.specs.Discords.{discords, discords_of, top};
ghost use Rattle.discord_query.specs.Searches.{IsReady, AreSeries};

use crate::discords::{Discord, DiscordList};
use crate::groups::{group_count, group_size};
use crate::homes::homes_of;
use crate::search::DiscordSearch;
use crate::team::draw_together;
use best_word::BestWord;
use claim_word::Claims;
use isax_word::Layout;
use list_team::{dismiss, hire};
use outside::{Gate, NoMemory};
use search_limits::MOST_WORKERS;
use series_core::{KBest, MAX_BEST, NONE, Pair, Rows};
use std::alloc::Global;
use std::thread::Threads;
use subtree_build::Index;

/// The k series whose nearest other is farthest, the farthest first, of two as far the one with the smaller number: whatever
/// the number of workers, from 1 to 64, and whichever series each of them draws. `gate.pass(worker, turn)` comes before each
/// draw of some series in a row, turns counted from 0. It waits for nobody, and one worker starts no thread.
pub fn discord<T: Threads + Sync, R: Rows + Sync, G: Gate + Sync>(
    rt: &T,
    alloc: Global,
    rows: &R,
    index: &Index,
    layout: &Layout,
    k: u32,
    workers: u32,
    gate: &G,
) -> Result<DiscordList, NoMemory>
    requires fits { Fits (R.collection rows.now) layout.now index.now }
    requires length { (R.collection rows.now).points ≡ layout.now.cuts.row_length }
    requires k { (1 ≤ k) × (k ≤ MAX_BEST) }
    requires workers { (1 ≤ workers) × (workers ≤ MOST_WORKERS) }
    ensures { IfOk result (λ ds. ds ≡ discords (R.collection rows.now) k) }
{
    let homes = homes_of(alloc, index, rows.count())?;
    let search = DiscordSearch {
        rows,
        index,
        layout,
        homes: homes.as_slice(),
        k,
        size: group_size(rows.count(), workers),
    };
    let farthest = by_team(rt, alloc, &search, workers, gate)?;
    named(alloc, &search, farthest.pairs())
}

/// The k farthest of all series, each with `NONE` less the distance of its nearest other, by workers who draw side by side.
fn by_team<T: Threads + Sync, R: Rows + Sync, G: Gate + Sync>(
    rt: &T,
    alloc: Global,
    search: &DiscordSearch<'_, R>,
    workers: u32,
    gate: &G,
) -> Result<KBest, NoMemory>
    requires ready { IsReady R.collection search.now }
    requires workers { (1 ≤ workers) × (workers ≤ MOST_WORKERS) }
    ensures { IfOk result (λ all. all.pairs ≡ top (R.collection search.now.rows.now) search.now.k) }
{
    let (best, words) = BestWord::begin(alloc, search, NONE, workers)?;
    let groups = u64::from(group_count(search));
    let (claims, passes) = Claims::begin(alloc, groups, workers)?;
    let mut team = hire(alloc, &claims, &best, search.k, passes, words)?;
    draw_together(rt, alloc, search, &claims, &best, gate, &mut team);
    let list = dismiss(alloc, search.k, claims, team)?;
    Ok(list)
}

/// Each of these series with its nearest other.
fn named<R: Rows>(
    alloc: Global,
    search: &DiscordSearch<'_, R>,
    farthest: &[Pair],
) -> Result<DiscordList, NoMemory>
    requires ready { IsReady R.collection search.now }
    requires inside { AreSeries (R.collection search.now.rows.now) farthest.now }
    ensures { IfOk result (λ ds. ds ≡ flat_map (λ p. discords_of (R.collection search.now.rows.now) p.number) farthest.now) }
{
    let mut items = Vec::with_capacity(alloc, farthest.len())?;
    for pair in farthest {
        if let Some(other) = search.other(alloc, pair.number)? {
            items.push(Discord {
                number: pair.number,
                distance: other.distance,
                neighbour: other.number,
            })?;
        }
    }
    Ok(DiscordList { items })
}
