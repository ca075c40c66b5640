//! The laws that an index that fits a collection is all that a search stands on. They do nothing: their clauses are the laws.
ghost use Rattle.std.specs.Prelude.{◌≡◌, ℕ, ◌<◌, ◌≤◌};
ghost use Rattle.series_core.specs.Answer.{answer as collection_answer};
ghost use Rattle.subtree_build.specs.Fits.{Fits as IndexFits};
ghost use Rattle.subtree_build.specs.Index.{IndexParts, IsIndex};
ghost use Rattle.search_machine.specs.Ground.{Fits, answer, last, start_limit};
ghost use Rattle.search_machine.specs.Measures.{Measures};
ghost use Rattle.search_task.specs.Questions.{Question, CanBeSearched, IsQuestion, last_of, search_over};

use crate::task::Task;
use series_core::Rows;
use subtree_build::Index;

/// An index that fits the collection can be searched by any workers over any queues: each series has a home of its own, each
/// leaf is below one root child and has a bound that is at most the distance of its members, and the start leaf is a leaf.
/// The search measures the collection's series, so its answer and its last distance are those of the question, and its
/// starting limit is not below that distance.
pub fn index_law()
    ensures searches { (a : Question) (ix : IndexParts) → IsQuestion a → IsIndex ix
        → IndexFits a.collection a.layout ix → CanBeSearched a ix }
    ensures fits { (a : Question) (ix : IndexParts) (workers queues : ℕ) → CanBeSearched a ix
        → 0 < workers → 0 < queues → Fits (search_over a ix workers queues) }
    ensures measures { (a : Question) (ix : IndexParts) (workers queues : ℕ)
        → Measures (search_over a ix workers queues) a.collection a.query }
    ensures last { (a : Question) (ix : IndexParts) (workers queues : ℕ) → IsQuestion a
        → last (search_over a ix workers queues) ≡ last_of a }
    ensures answer { (a : Question) (ix : IndexParts) (workers queues : ℕ)
        → answer (search_over a ix workers queues) ≡ collection_answer a.collection a.query a.k }
    ensures limit { (a : Question) (ix : IndexParts) (workers queues : ℕ) → CanBeSearched a ix
        → last_of a ≤ start_limit (search_over a ix workers queues) }
{}

/// The same of a task and an index: that they are a question and an index needs no premise.
pub fn search_law<R: Rows>(task: &Task<'_, R>, index: &Index)
    requires fits { IndexFits task.now.collection task.now.layout index.now }
    ensures searches { CanBeSearched task.now index.now }
    ensures fits { (workers queues : ℕ) → 0 < workers → 0 < queues
        → Fits (search_over task.now index.now workers queues) }
    ensures last { (workers queues : ℕ) → last (search_over task.now index.now workers queues) ≡ last_of task.now }
    ensures answer { (workers queues : ℕ) → answer (search_over task.now index.now workers queues)
        ≡ collection_answer task.now.collection task.now.query task.now.k }
    ensures limit { (workers queues : ℕ) → last_of task.now ≤ start_limit (search_over task.now index.now workers queues) }
{
    // for the facts that the task is a question, and that the index is one
    let _k = task.k();
    let _leaves = index.leaf_count();
    index_law();
}
