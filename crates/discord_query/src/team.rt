//! Workers that draw groups of series until none is left, each with the k farthest that it finished.
ghost use Rattle.std.specs.Prelude.{◌≡◌, ◌*◌, ◌<◌, All, OnOk, length, vec_len, true};
ghost use Rattle.list_totals.specs.Standing.{In};
ghost use Rattle.list_team.specs.Searchers.{IsFresh, IsTold};
ghost use Rattle.series_core.specs.declared.pair.Pair.{Pair};
ghost use Rattle.discord_query.specs.Searches.{IsReady, floor_of};
ghost use Rattle.discord_query.specs.Done.{IsDone, IsPart, Weighed};
ghost use Rattle.discord_query.specs.Groups.{IsCut, IsOfGroup};

use crate::recent::Recent;
use crate::search::DiscordSearch;
use best_word::{BestWord, WordPass};
use claim_word::Claims;
use list_team::{Searcher, offer_last};
use outside::{Gate, NoMemory};
use series_core::{KBest, NONE, Pair, Rows};
use std::alloc::Global;
use std::thread::Threads;
use worker_team::for_each_mut;

/// Takes one series in: gives it up, or finds its nearest other and keeps it among the k farthest.
fn weigh<R: Rows>(
    alloc: Global,
    search: &DiscordSearch<'_, R>,
    best: &BestWord,
    word: &mut WordPass,
    list: &mut KBest,
    recent: &mut Recent,
    number: u32,
) -> Result<(), NoMemory>
    requires ready { IsReady R.collection search.now }
    requires number { number < length (R.collection search.now.rows.now).series }
    requires told { IsTold best.now (floor_of R.collection search.now) word.old }
    requires part { IsPart (R.collection search.now.rows.now) search.now.k list.old }
    requires new { (p : Pair) → In p list.old.pairs → p.number < number }
    ensures told { IsTold best.now (floor_of R.collection search.now) word.new }
    ensures weighed { let c = R.collection search.now.rows.now in
        OnOk result (Weighed c search.now.k (λ s. s ≡ number) list.old list.new) }
{
    let limit = best.read(word);
    if search.is_given_up(number, limit, recent) {
        return Ok(());
    }
    let Some(other) = search.other(alloc, number)? else {
        return Ok(());
    };
    list.add(Pair {
        distance: NONE - other.distance,
        number,
    });
    offer_last(best, word, list);
    Ok(())
}

/// Takes in the series of a group, one after another.
fn weigh_group<R: Rows>(
    alloc: Global,
    search: &DiscordSearch<'_, R>,
    best: &BestWord,
    word: &mut WordPass,
    list: &mut KBest,
    recent: &mut Recent,
    group: u32,
) -> Result<(), NoMemory>
    requires ready { IsReady R.collection search.now }
    requires group { group * search.now.size < length (R.collection search.now.rows.now).series }
    requires told { IsTold best.now (floor_of R.collection search.now) word.old }
    requires part { IsPart (R.collection search.now.rows.now) search.now.k list.old }
    requires new { (p : Pair) → In p list.old.pairs → p.number < group * search.now.size }
    ensures told { IsTold best.now (floor_of R.collection search.now) word.new }
    ensures weighed { let c = R.collection search.now.rows.now in
        OnOk result (Weighed c search.now.k (IsOfGroup search.now.size group) list.old list.new) }
{
    let first = group * search.size;
    let end = first + search.size.min(search.rows.count() - first);
    for number in first..end {
        weigh(alloc, search, best, word, list, recent, number)?;
    }
    Ok(())
}

/// Draws groups of series until none is left, and takes in each.
fn draw_all<R: Rows, G: Gate>(
    alloc: Global,
    search: &DiscordSearch<'_, R>,
    claims: &Claims,
    best: &BestWord,
    gate: &G,
    worker: &mut Searcher,
) -> Result<(), NoMemory>
    requires ready { IsReady R.collection search.now }
    requires cut { IsCut search.now.size (length (R.collection search.now.rows.now).series) claims.now.count }
    requires fresh { let floor = floor_of R.collection search.now in
        IsFresh claims.now best.now floor search.now.k worker.old }
    ensures own { worker.new.pass.claims ≡ claims.now }
    ensures done { let c = R.collection search.now.rows.now in
        OnOk result (IsDone c search.now.k search.now.size worker.new.pass worker.new.list) }
{
    let mut recent = Recent::new();
    loop {
        gate.pass(worker.number, worker.turn);
        worker.turn = worker.turn.saturating_add(1);
        let Some(drawn) = claims.draw(&mut worker.pass) else {
            return Ok(());
        };
        weigh_group(
            alloc,
            search,
            best,
            &mut worker.word,
            &mut worker.list,
            &mut recent,
            drawn as u32,
        )?;
    }
}

/// Lets a worker draw to the end, and notes whether it came there.
fn work<R: Rows, G: Gate>(
    alloc: Global,
    search: &DiscordSearch<'_, R>,
    claims: &Claims,
    best: &BestWord,
    gate: &G,
    worker: &mut Searcher,
)
    requires ready { IsReady R.collection search.now }
    requires cut { IsCut search.now.size (length (R.collection search.now.rows.now).series) claims.now.count }
    requires fresh { let floor = floor_of R.collection search.now in
        IsFresh claims.now best.now floor search.now.k worker.old }
    ensures own { worker.new.pass.claims ≡ claims.now }
    ensures done { let c = R.collection search.now.rows.now in
        worker.new.ended ≡ true → IsDone c search.now.k search.now.size worker.new.pass worker.new.list }
{
    worker.ended = draw_all(alloc, search, claims, best, gate, worker).is_ok();
}

/// Lets the workers draw side by side, each in a thread of its own that the caller starts; a worker alone starts no thread.
pub(crate) fn draw_together<T: Threads + Sync, R: Rows + Sync, G: Gate + Sync>(
    rt: &T,
    alloc: Global,
    search: &DiscordSearch<'_, R>,
    claims: &Claims,
    best: &BestWord,
    gate: &G,
    team: &mut Vec<Searcher>,
)
    requires ready { IsReady R.collection search.now }
    requires cut { IsCut search.now.size (length (R.collection search.now.rows.now).series) claims.now.count }
    requires some { 0 < vec_len team.old }
    requires fresh { let floor = floor_of R.collection search.now in
        All (IsFresh claims.now best.now floor search.now.k) team.old.items }
    ensures len { vec_len team.new ≡ vec_len team.old }
    ensures own { All (λ w. w.pass.claims ≡ claims.now) team.new.items }
    ensures done { let c = R.collection search.now.rows.now in
        All (λ w. w.ended ≡ true → IsDone c search.now.k search.now.size w.pass w.list) team.new.items }
{
    for_each_mut(
        rt,
        team.as_mut_slice(),
        &|_, worker| work(alloc, search, claims, best, gate, worker),
    );
}
