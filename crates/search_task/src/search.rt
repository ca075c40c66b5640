//! A search: a task with an index that fits the task's rows. Who holds one need not ask whether they fit.
ghost use Rattle.std.specs.Prelude.{◌≡◌, ◌<◌, length};
ghost use Rattle.subtree_build.specs.Fits.{Fits as IndexFits};
ghost use Rattle.search_task.specs.Questions.{CanBeSearched, leaf_series, view_in};

use crate::task::Task;
use lower_bound::QueryView;
use series_core::Rows;
use std::marker::Model;
use subtree_build::Index;

/// A task and the index that is searched for it. It is seen as its question and the index, which can be searched for the question.
#[derive(Drop)]
pub struct Search<'a, R: Rows> {
    pub(crate) task: &'a Task<'a, R>,
    pub(crate) index: &'a Index,
}

impl<'a, R: Rows> Model for Search<'a, R> {
    ghost use Rattle.std.specs.Coded.{codes};
    ghost use Rattle.subtree_build.specs.contracts.node.Node as node;
    ghost use Rattle.search_task.specs.Questions.{CanBeSearched, Searched};

    ghost Value = { Searched };

    ghost coded = { Prim.hlevel (codes, node.the_row.coded) };

    ghost view = { λ s. record { question = s.task.now; index = s.index.now } };

    ghost invariant = { λ s. CanBeSearched s.task.now s.index.now };
}

impl<'a, R: Rows> Search<'a, R> {
    /// The search of this index for what the task asks.
    pub fn new(task: &'a Task<'a, R>, index: &'a Index) -> Search<'a, R>
        requires fits { IndexFits task.now.collection task.now.layout index.now }
        ensures search { result ≡ record { question = task.now; index = index.now } }
        ensures searched { CanBeSearched task.now index.now }
    {
        // for the facts that the task is a question, and that the index is one
        let _k = task.k();
        let _leaves = index.leaf_count();
        Search { task, index }
    }

    /// How many pairs are wanted.
    pub fn k(&self) -> u32
        ensures k { result ≡ self.now.question.k }
        ensures searched { CanBeSearched self.now.question self.now.index }
    {
        self.task.k()
    }

    /// The task that asks the question.
    pub fn task(&self) -> &'a Task<'a, R>
        ensures task { result.now ≡ self.now.question }
        ensures searched { CanBeSearched self.now.question self.now.index }
    {
        self.task
    }

    /// The query as bounds see it.
    pub fn view(&self) -> &'a QueryView
        ensures view { result.now ≡ view_in self.now.question }
        ensures searched { CanBeSearched self.now.question self.now.index }
    {
        self.task.view()
    }

    /// The index that is searched.
    pub fn index(&self) -> &'a Index
        ensures index { result.now ≡ self.now.index }
        ensures searched { CanBeSearched self.now.question self.now.index }
    {
        self.index
    }

    /// How many leaves the index has.
    pub fn leaf_count(&self) -> u32
        ensures count { result ≡ length self.now.index.leaves }
        ensures searched { CanBeSearched self.now.question self.now.index }
    {
        self.index.leaf_count()
    }

    /// How many root children the index has.
    pub fn root_count(&self) -> u32
        ensures count { result ≡ length self.now.index.roots }
        ensures searched { CanBeSearched self.now.question self.now.index }
    {
        self.index.root_count()
    }

    /// How many members a leaf has.
    pub fn leaf_size(&self, leaf: u32) -> usize
        requires leaf { leaf < length self.now.index.leaves }
        ensures size { result ≡ length (leaf_series self.now.index leaf) }
    {
        self.index.leaf_members(leaf).len()
    }
}
