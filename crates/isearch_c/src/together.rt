//! The k nearest rows to several queries. Those of which means tell little are swept together, so that the codes of the rows go through the
//! cache once for many queries; the others are searched one by one. Its one rule: how a query is answered changes no answer.
ghost use Rattle.std.specs.Prelude.{◌≡◌, IfOk, length};
ghost use Rattle.isearch_c.specs.Asking.{AreWhole, CanWant, AreIndexed};
ghost use Rattle.isearch_c.specs.Faults.{rows_fit};
ghost use Rattle.isearch_c.specs.Found.{all_nearest};

use crate::answers::{Asked, IndexedRows, put};
use crate::building::rows_fit;
use group_answer::{Asked as Together, next_answer};
use outside::NoMemory;
use series_core::{Flat, Pair, Rows};
use std::alloc::Global;

impl<'a, R: Rows> IndexedRows<'a, R> {
    /// The k nearest rows to each query, filled up to k. The values are a whole number of queries.
    pub fn nearest_to_all(
        &self,
        alloc: Global,
        k: u32,
        queries: &[i16],
    ) -> Result<Vec<Pair>, NoMemory>
        requires indexed { AreIndexed R.collection self.now }
        requires whole { AreWhole (R.collection self.now.rows.now).points queries.now }
        requires k { CanWant k }
        ensures { IfOk result (λ pairs. pairs.items ≡ all_nearest k (R.collection self.now.rows.now) queries.now) }
    {
        let length = self.rows.length();
        if queries.len() > length as usize && rows_fit(length, queries.len()) {
            let flat = Flat::from_values(length, queries.to_vec(alloc)?);
            let count = flat.count();
            let together = Together {
                rows: self.rows,
                queries: &flat,
                k,
                layout: self.layout,
                index: self.index,
            };
            let mut found = Vec::new(alloc);
            let mut ahead = Vec::new(alloc);
            for i in 0..count {
                let pairs = next_answer(alloc, &together, i, count, &mut ahead)?;
                put(&mut found, &pairs.items, k)?;
            }
            return Ok(found);
        }
        self.answers(alloc, Asked { k, apart: None }, queries)
    }
}
