//! The worker: its phase, its walk, its list, and one mark a leaf that it scanned.
ghost use Rattle.std.specs.Prelude.{◌≡◌, ◌%◌, ◌<◌, ◌≤◌, ◌↔◌, IsTrue, true, false, not, IfOk, IfSome};
ghost use Rattle.std.specs.Option.{option_map};
ghost use Rattle.subtree_build.specs.Fits.{Fits as IndexFits};
ghost use Rattle.search_machine.specs.Basics.{start_of};
ghost use Rattle.search_machine.specs.declared.phase.Phase.TheVariants.{Done};
ghost use Rattle.search_machine.specs.Workers.{fills};
ghost use Rattle.search_task.specs.Questions.{leaf_bound, search_over, view_in};
ghost use Rattle.query_core.specs.Portions.{AreLimits};
ghost use Rattle.query_core.specs.Turning.{search_of};
ghost use Rattle.query_core.specs.Working.{AreOpeningMarks, HoldsSeries, IsOf, Shows, opened_list, opens_as};

use crate::bound_share::BoundShare;
use crate::limits::Limits;
use crate::stage::Stage;
use crate::walk::Walk;
use outside::NoMemory;
use search_limits::{MOST_QUEUES, MOST_WORKERS};
use search_machine::{Onward, Start};
use search_task::{Search, Task};
use series_core::{KBest, Rows};
use std::alloc::Global;
use std::marker::Model;
use subtree_build::Index;

/// A worker of a search (the MESSI paper, Peng, Fatourou, Palpanas, ICDE 2020). It is seen as its question and index, its
/// number, the number of queues, its phase, the leaves that it has still to look at, its list, its marks, and whether it shares limits of
/// portions with other workers: such limits lower only the limit of a pop.
#[derive(Drop)]
pub struct Worker<'a, R: Rows> {
    pub(crate) search: Search<'a, R>,
    pub(crate) number: u32,
    pub(crate) queues: u32,
    pub(crate) start: Option<u32>,
    pub(crate) stage: Stage,
    pub(crate) walk: Walk<'a>,
    pub(crate) list: KBest,
    pub(crate) marks: Vec<bool>,
    pub(crate) share: BoundShare,
    // those of the portions, where workers share them
    pub(crate) limits: Option<Limits<'a>>,
}

impl<'a, R: Rows> Model for Worker<'a, R> {
    ghost use Rattle.std.specs.Coded.{codes};
    ghost use Rattle.std.specs.Option.{is_some};
    ghost use Rattle.subtree_build.specs.contracts.node.Node as node;
    ghost use Rattle.search_machine.specs.Workers.{without};
    ghost use Rattle.query_core.specs.BoundShares.{AreBounds};
    ghost use Rattle.search_task.specs.Questions.{search_over, view_in};
    ghost use Rattle.query_core.specs.Working.{Working, IsWorking, phase_of, working};
    ghost use Rattle.query_core.specs.Portions.{Keeps};

    ghost Value = { Working };

    ghost coded = { Prim.hlevel (codes, node.the_row.coded) };

    ghost view = { λ w. working w.search.question w.search.index w.number w.queues (phase_of w.stage)
        (without w.start w.walk.leaves) w.list.pairs w.marks.items (is_some w.limits) };

    ghost invariant = { λ w. IsWorking w.start w.walk w.list w.stage
        (working w.search.question w.search.index w.number w.queues (phase_of w.stage)
        (without w.start w.walk.leaves) w.list.pairs w.marks.items (is_some w.limits))
        × Keeps (search_over w.search.question w.search.index 1 w.queues) w.marks.items w.limits
        × AreBounds (view_in w.search.question) w.search.index w.share };
}

impl<'a, R: Rows> Worker<'a, R> {
    /// Worker `number`, below 64, over `queues` queues, with the start and the list of the opening: for worker 0 what
    /// `Task::opening` gives, and for the others the same start and an empty list. It takes all the room that it will
    /// ever need.
    pub fn new(
        alloc: Global,
        task: &'a Task<'a, R>,
        index: &'a Index,
        number: u32,
        queues: u32,
        start: Option<Start>,
        list: KBest,
    ) -> Result<Worker<'a, R>, NoMemory>
        requires fits { IndexFits task.now.collection task.now.layout index.now }
        requires number { number < MOST_WORKERS }
        requires queues { (1 ≤ queues) × (queues ≤ MOST_QUEUES) }
        requires start { start ≡ start_of (search_over task.now index.now 1 queues) }
        requires list { list ≡ record {
          k = task.now.k;
          pairs = opened_list (search_over task.now index.now 1 queues) number;
        } }
        ensures place { IfOk result (λ w. IsOf task.now index.now queues number w) }
        ensures opens { IfOk result (λ w. Shows w (opens_as (search_over task.now index.now 1 queues) number)) }
        ensures alone { IfOk result (λ w. w.shares ≡ false) }
    {
        let search = Search::new(task, index);
        let start = leaf_of(start);
        let marks = opened_marks(alloc, index.leaf_count() as usize, number, start)?;
        let walk = Walk::new(index);
        Ok(Worker {
            search,
            number,
            queues,
            start,
            stage: Stage::Claim,
            walk,
            list,
            marks,
            share: BoundShare::none(alloc),
            limits: None,
        })
    }

    /// Lets the worker share these limits of portions. It is as it opened, and its first queue is its first portion.
    pub fn share(&mut self, limits: Limits<'a>)
        requires opens { Shows self.old (opens_as (search_of self.old 1) self.old.number) }
        requires limits { AreLimits (search_of self.old 1) limits }
        requires home { (limits.home ≡ self.old.number % self.old.queues) × (limits.at_home ≡ true) }
        ensures shares { self.new ≡ record self.old { shares = true } }
    {
        self.limits = Some(limits);
    }

    /// Takes the room for the bounds of its share of the leaves, which are shared out among this number of workers.
    pub fn take_share(&mut self, alloc: Global, workers: u32) -> Result<(), NoMemory>
        requires workers { 1 ≤ workers }
        ensures same { self.new ≡ self.old }
    {
        let leaves = self.search.leaf_count();
        let size = (leaves / workers).saturating_add(1);
        let first = self.number.saturating_mul(size).min(leaves);
        self.share = BoundShare::with_room(alloc, first, first.saturating_add(size).min(leaves))?;
        Ok(())
    }

    /// Reckons the bounds of its share.
    pub fn reckon(&mut self)
        ensures same { self.new ≡ self.old }
    {
        self.share.reckon(self.search.view(), self.search.index());
    }

    /// The lower bound of a leaf, where it reckoned it.
    pub fn bound_of(&self, leaf: u32) -> Option<u64>
        ensures { IfSome result (λ b. b ≡ leaf_bound (view_in self.now.question) self.now.index leaf) }
    {
        self.share.get(leaf)
    }

    /// Whether its fill part has ended: a claim of its own was answered None.
    pub fn filled(&self) -> bool
        ensures { result ≡ not (fills self.now.phase) }
    {
        match self.stage {
            Stage::Claim | Stage::Look | Stage::Give(_) | Stage::Late(_) => false,
            Stage::Offer(Onward::Look) => false,
            Stage::Aim(_) | Stage::Pop(_, _) | Stage::Offer(Onward::Aim(_)) | Stage::Done => true,
        }
    }

    /// Whether it is done.
    pub(crate) fn is_done(&self) -> bool
        ensures { IsTrue result ↔ (self.now.phase ≡ Done) }
    {
        match self.stage {
            Stage::Claim | Stage::Look | Stage::Give(_) | Stage::Late(_) => false,
            Stage::Aim(_) | Stage::Pop(_, _) | Stage::Offer(_) => false,
            Stage::Done => true,
        }
    }

    /// Lends its list, whose pairs are of different series.
    pub fn list(&self) -> &KBest
        ensures list { result.now ≡ record { k = self.now.question.k; pairs = self.now.list } }
        ensures series { HoldsSeries self.now.question self.now.list }
    {
        &self.list
    }
}

// The leaf of a start.
fn leaf_of(start: Option<Start>) -> Option<u32>
    ensures { result ≡ option_map (λ s. s.leaf) start }
{
    match start {
        Some(start) => Some(start.leaf),
        None => None,
    }
}

// The marks of leaves with which a worker opens: worker 0 has scanned the start leaf.
fn opened_marks(
    alloc: Global,
    leaves: usize,
    number: u32,
    start: Option<u32>,
) -> Result<Vec<bool>, NoMemory>
    requires { IfSome start (λ l. l < leaves) }
    ensures { IfOk result (λ marks. AreOpeningMarks number start leaves marks.items) }
{
    let mut marks = vec![in alloc; false; leaves]?;
    if let Some(leaf) = start
        && number == 0
    {
        marks[leaf as usize] = true;
    }
    Ok(marks)
}
