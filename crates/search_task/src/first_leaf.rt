//! The opening of a search: the leaf where it starts, and the list that the start leaf's members give.
ghost use Rattle.std.specs.Prelude.{◌≡◌, ◌<◌, IfOk, IfSome, length};
ghost use Rattle.subtree_build.specs.Fits.{Fits as IndexFits};
ghost use Rattle.subtree_build.specs.Start.{start_leaf_of};
ghost use Rattle.search_machine.specs.Ground.{opening};
ghost use Rattle.search_machine.specs.Basics.{start_of};
ghost use Rattle.search_task.specs.Questions.{CanBeSearched, ground_of, search_over, view_in};

use crate::scan::distance_of_worst;
use crate::search::Search;
use crate::task::Task;
use outside::NoMemory;
use search_machine::Start;
use series_core::{KBest, NONE, Rows};
use std::alloc::Global;
use subtree_build::Index;

impl<'a, R: Rows> Search<'a, R> {
    /// The leaf where the search starts, as the index tells it; none where there is no leaf.
    pub fn start_leaf(&self) -> Option<u32>
        ensures start { result ≡ start_leaf_of (view_in self.now.question) self.now.index }
        ensures leaf { IfSome result (λ l. l < length self.now.index.leaves) }
        ensures searched { CanBeSearched self.now.question self.now.index }
    {
        self.index().start_leaf(self.task().view())
    }

    /// The start and the list with which worker 0 opens: the k smallest pairs of the start leaf's members, and as the starting
    /// limit the distance of the k-th, or `NONE` where there are fewer. No start and an empty list where there is no leaf.
    pub fn opening(&self, alloc: Global) -> Result<(Option<Start>, KBest), NoMemory>
        ensures start { IfOk result (λ r. r.0 ≡ start_of (ground_of self.now)) }
        ensures list { IfOk result (λ r. r.1 ≡ record { k = self.now.question.k; pairs = opening (ground_of self.now) }) }
    {
        let mut list = KBest::new(alloc, self.k())?;
        let Some(leaf) = self.start_leaf() else {
            return Ok((None, list));
        };
        self.scan_leaf(leaf, NONE, &mut list);
        let limit = distance_of_worst(&list);
        Ok((Some(Start { leaf, limit }), list))
    }
}

impl<'a, R: Rows> Task<'a, R> {
    /// The opening of the search of this index, as `Search::opening` tells it.
    pub fn opening(&self, alloc: Global, index: &Index) -> Result<(Option<Start>, KBest), NoMemory>
        requires fits { IndexFits self.now.collection self.now.layout index.now }
        ensures start { IfOk result (λ r. r.0 ≡ start_of (search_over self.now index.now 1 1)) }
        ensures list { IfOk result (λ r. r.1 ≡ record {
          k = self.now.k;
          pairs = opening (search_over self.now index.now 1 1);
        }) }
    {
        Search::new(self, index).opening(alloc)
    }
}
