//! The limits of portions, as one worker has them. The leaves of a queue are a portion of all leaves; while a worker has scanned leaves of
//! one portion alone, a pair of its list is a limit for that portion. What is no less than all of them is a limit for all leaves.
ghost use Rattle.std.specs.Prelude.{◌≡◌, ◌-◌, ◌<◌, ◌≤◌, true, slice_get};
ghost use Rattle.series_core.specs.Order.{distance_at};
ghost use Rattle.series_core.specs.declared.distance.TheConstants.{NONE as no_limit};
ghost use Rattle.search_machine.specs.Ground.{Ground};
ghost use Rattle.query_core.specs.Portions.{AreLimits, CanLimit, HasLimits, HasRead, HasScanned, IfRead, IfScanned};
ghost use Rattle.query_core.specs.Portions.{portion_last};

use best_word::{BestWord, WordPass};
use series_core::{KBest, NONE, Pair};
use std::marker::Model;

/// The words that hold the limits of all portions, with a worker's passes of them.
#[derive(Drop)]
pub struct Limits<'a> {
    words: &'a [BestWord],
    passes: Vec<WordPass>,
    home: usize,
    at_home: bool,
    // the least that it offered
    offered: u64,
}

impl<'a> Model for Limits<'a> {
    ghost use Rattle.query_core.specs.Portions.{Limited};

    ghost Value = { Limited };

    ghost view = { λ l. record {
      words = l.words.now;
      passes = l.passes.items;
      home = l.home;
      at_home = l.at_home;
      offered = l.offered;
    } };

    ghost invariant = { λ l. Unit {0} };
}

impl<'a> Limits<'a> {
    /// The limits that these words hold, for a worker that scans leaves of portion `home` first.
    pub fn new(words: &'a [BestWord], passes: Vec<WordPass>, home: u32) -> Limits<'a>
        ensures { result ≡ record { words = words.now; passes = passes.items; home = home; at_home = true; offered = no_limit } }
    {
        Limits {
            words,
            passes,
            home: home as usize,
            at_home: true,
            offered: NONE,
        }
    }

    // The greatest of the limits.
    fn most(&mut self) -> u64
        requires limits { (g : Ground) × AreLimits g self.old }
        ensures read { (g : Ground) → AreLimits g self.old → HasRead g self.old self.new result }
    {
        let words = self.words;
        let mut most = 0u64;
        for portion in 0..words.len() {
            most = most.max(words[portion].read(&mut self.passes[portion]));
        }
        most
    }

    // Offers this distance for its portion where the worker stays there.
    fn scanned(&mut self, portion: u32, distance: u64)
        requires limits { (g : Ground) × AreLimits g self.old
            × (self.old.at_home ≡ true → self.old.home ≡ portion → portion_last g portion ≤ distance) }
        ensures scanned { (g : Ground) → AreLimits g self.old → HasScanned g portion distance self.old self.new }
    {
        self.at_home = self.at_home && self.home == portion as usize;
        if self.at_home && distance < self.offered {
            let words = self.words;
            words[self.home].offer(&mut self.passes[self.home], distance);
            self.offered = distance;
        }
    }
}

/// The greatest of the limits that a worker may have; `NONE` where it has none.
pub(crate) fn most_of(limits: &mut Option<Limits<'_>>) -> u64
    requires limits { (g : Ground) × HasLimits g limits.old }
    ensures read { (g : Ground) → HasLimits g limits.old → IfRead g limits.old limits.new result }
{
    match limits {
        Some(limits) => limits.most(),
        None => NONE,
    }
}

/// Lets the limits know that a leaf of this portion was scanned into the list. The pair of this rank, from 1, is the limit.
pub(crate) fn note_scan(limits: &mut Option<Limits<'_>>, portion: u32, rank: u32, list: &KBest)
    requires rank { 0 < rank }
    requires limits { (g : Ground) × CanLimit g portion (distance_at (rank - 1) list.now.pairs) limits.old }
    ensures scanned { (g : Ground) → CanLimit g portion (distance_at (rank - 1) list.now.pairs) limits.old
        → IfScanned g portion (distance_at (rank - 1) list.now.pairs) limits.old limits.new }
{
    if let Some(limits) = limits {
        limits.scanned(portion, distance_of_rank(list, rank));
    }
}

// The distance of the pair of this rank, from 1, or `NONE` where fewer are held.
fn distance_of_rank(list: &KBest, rank: u32) -> u64
    requires { 0 < rank }
    ensures { result ≡ distance_at (rank - 1) list.now.pairs }
{
    match pair_of_rank(list, rank) {
        Some(pair) => pair.distance,
        None => NONE,
    }
}

// The pair of this rank, from 1.
fn pair_of_rank(list: &KBest, rank: u32) -> Option<Pair>
    requires { 0 < rank }
    ensures pair { result ≡ slice_get list.now.pairs (rank - 1) }
{
    list.pairs().get(rank as usize - 1).copied()
}
