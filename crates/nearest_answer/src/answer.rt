//! The answer alone: a search by one worker that owes the pairs and nothing of the way to them. It takes no turns: a first limit
//! is found, and then the leaves near enough are scanned, or all members or rows where means tell too little.
ghost use Rattle.std.specs.Prelude.{◌≡◌, IfOk};
ghost use Rattle.series_core.specs.Answer.{answer};
ghost use Rattle.subtree_build.specs.Fits.{Fits as IndexFits};

use crate::all_rows::answer_by_rows;
use crate::by_leaves::nearest_by_leaves;
use crate::sweep::answer_by_codes;
use crate::telling::ApartBy;
use crate::way::first_way;
use outside::NoMemory;
use search_task::{Search, Task};
use series_core::{KBest, PairList, Rows};
use std::alloc::Global;
use subtree_build::Index;

/// The k nearest rows, without what an outcome has for a certificate.
pub fn one_worker_answer<R: Rows>(
    alloc: Global,
    task: &Task<'_, R>,
    index: &Index,
) -> Result<PairList, NoMemory>
    requires fits { IndexFits task.now.collection task.now.layout index.now }
    ensures { IfOk result (λ ps. ps ≡ answer task.now.collection task.now.query task.now.k) }
{
    let search = Search::new(task, index);
    let list = nearest(alloc, &search)?;
    Ok(PairList {
        items: list.pairs().to_vec(alloc)?,
    })
}

// The list of the answer: by leaves where means tell series apart, else by the codes of all rows, and else by all rows themselves.
fn nearest<R: Rows>(alloc: Global, search: &Search<'_, R>) -> Result<KBest, NoMemory>
    ensures { let a = search.now.question in IfOk result (λ best. best.pairs ≡ answer a.collection a.query a.k) }
{
    let (by, first) = first_way(alloc, search)?;
    match by {
        ApartBy::Means => nearest_by_leaves(alloc, search, first),
        ApartBy::Codes => {
            let empty = KBest::new(alloc, search.k())?;
            Ok(answer_by_codes(search, first, empty))
        }
        ApartBy::Nothing => answer_by_rows(alloc, search, first),
    }
}
