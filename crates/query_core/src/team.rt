//! A team: all workers of a search over one hand in one thread. A turn of its worker is a turn of the machine.
ghost use Rattle.std.specs.Prelude.{◌≡◌, ◌<◌, ◌≤◌, ◌↔◌, IfOk, IsTrue, MatchOption, length};
ghost use Rattle.search_machine.specs.Machine.{State, opened, turn};
ghost use Rattle.search_task.specs.Questions.{search_over};
ghost use Rattle.query_core.specs.Teams.{StandsAt, IsFirstBusy, AreDone, searched};

use crate::one_thread::OneThread;
use crate::opening::{hire, limit_of};
use crate::worker::Worker;
use outside::NoMemory;
use search_limits::{MOST_QUEUES, MOST_WORKERS};
use search_machine::Start;
use search_task::Search;
use series_core::Rows;
use std::alloc::Global;
use std::marker::Model;

/// The workers of a search with what they share. It is seen as its question and index, the number of queues, the start, what
/// is shared, and the workers.
#[derive(Drop)]
pub(crate) struct Team<'a, R: Rows> {
    pub(crate) search: Search<'a, R>,
    pub(crate) queues: u32,
    pub(crate) start: Option<Start>,
    pub(crate) hand: OneThread<'a, R>,
    pub(crate) workers: Vec<Worker<'a, R>>,
}

impl<'a, R: Rows> Model for Team<'a, R> {
    ghost use Rattle.std.specs.Coded.{codes};
    ghost use Rattle.subtree_build.specs.contracts.node.Node as node;
    ghost use Rattle.query_core.specs.Teams.{TeamParts, IsTeam, team_of};

    ghost Value = { TeamParts };

    ghost coded = { Prim.hlevel (codes, node.the_row.coded) };

    ghost view = { λ t. team_of t.search.question t.search.index t.queues t.start t.hand t.workers.items };

    ghost invariant = { λ t. IsTeam (team_of t.search.question t.search.index t.queues t.start t.hand t.workers.items) };
}

impl<'a, R: Rows> Team<'a, R> {
    /// The team of 1 to 64 workers over 1 to 64 queues at the opening of the search.
    pub(crate) fn open(
        alloc: Global,
        search: Search<'a, R>,
        workers: u32,
        queues: u32,
    ) -> Result<Team<'a, R>, NoMemory>
        requires workers { (1 ≤ workers) × (workers ≤ MOST_WORKERS) }
        requires queues { (1 ≤ queues) × (queues ≤ MOST_QUEUES) }
        ensures searches { let s = search.entry in IfOk result (λ t. searched t ≡ search_over s.question s.index workers queues) }
        ensures opens { let s = search.entry in
            IfOk result (λ t. StandsAt t (opened (search_over s.question s.index workers queues))) }
    {
        // for the fact that the index can be searched
        let _k = search.k();
        let (start, list) = search.opening(alloc)?;
        let limit = limit_of(start);
        let hand = OneThread::new(alloc, search.task(), search.index(), queues, limit)?;
        let workers = hire(alloc, &search, workers, queues, start, list)?;
        Ok(Team {
            search,
            queues,
            start,
            hand,
            workers,
        })
    }

    /// Whether there is a worker `i`.
    pub(crate) fn has(&self, i: u32) -> bool
        ensures { IsTrue result ↔ (i < length self.now.workers) }
    {
        (i as usize) < self.workers.len()
    }

    /// One turn of worker `i`; nothing where it is done.
    pub(crate) fn turn(&mut self, i: u32)
        requires place { i < length self.old.workers }
        ensures same { searched self.new ≡ searched self.old }
        ensures turns { (s : State) → StandsAt self.old s
            → StandsAt self.new (turn (searched self.old) i s) }
    {
        if self.workers[i as usize].is_done() {
            return;
        }
        self.workers[i as usize].turn(&mut self.hand);
    }

    /// The first worker that is not done. None where all are.
    pub(crate) fn first_busy(&self) -> Option<u32>
        ensures { MatchOption result (AreDone self.now.workers) (IsFirstBusy self.now.workers) }
    {
        for (i, worker) in self.workers.iter().enumerate() {
            if !worker.is_done() {
                return Some(i as u32);
            }
        }
        None
    }
}
