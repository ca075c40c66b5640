//! What several queries are asked of, and what is found for them.
ghost use Rattle.std.specs.Prelude.{◌≡◌, ◌<◌, ◌≤◌, IfSome, length};
ghost use Rattle.group_answer.specs.Asking.{AreAnswers, IsAsked, answer_to, question_of};

use isax_word::Layout;
use search_task::Task;
use series_core::{Flat, PairList, Rows};
use subtree_build::Index;

/// Queries, and what they are asked of: of each the `k` nearest rows are wanted.
#[derive(Drop)]
pub struct Asked<'a, R> {
    /// What is searched.
    pub rows: &'a R,
    /// The queries, as long as the rows.
    pub queries: &'a Flat,
    /// How many of the nearest are wanted, from 1 to 1024.
    pub k: u32,
    /// How words are made.
    pub layout: &'a Layout,
    /// An index of the rows by this layout.
    pub index: &'a Index,
}

/// A query, and the pairs that were found for it.
#[derive(Drop)]
pub struct Answered {
    /// The number of the query.
    pub number: u32,
    /// The pairs of the rows that are nearest to it.
    pub pairs: PairList,
}

impl<'a, R: Rows> Asked<'a, R> {
    /// The task of query i.
    pub fn task(&self, i: u32) -> Task<'a, R>
        requires asked { IsAsked R.collection self.now }
        requires below { i < length self.now.queries.now.series }
        ensures { result ≡ question_of R.collection self.now i }
    {
        // for the fact that the queries are a collection
        let _length = self.queries.length();
        Task::new(self.rows, self.queries.row(i), self.k, self.layout)
    }

    /// Takes the answer to query i, where it is the last of those found ahead.
    pub fn take(&self, ahead: &mut Vec<Answered>, i: u32) -> Option<PairList>
        requires ahead { AreAnswers R.collection self.now ahead.old.items }
        ensures right { IfSome result (λ pairs. pairs ≡ answer_to R.collection self.now i) }
        ensures ahead { AreAnswers R.collection self.now ahead.new.items }
        ensures few { length ahead.new.items ≤ length ahead.old.items }
    {
        if ahead.last()?.number != i {
            return None;
        }
        let found = ahead.pop()?;
        Some(found.pairs)
    }
}
