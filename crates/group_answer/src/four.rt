//! Four queries that are swept together: the codes of a row are unpacked once for all four, and each query holds its own limit against
//! its own bound.
ghost use Rattle.std.specs.Prelude.{◌≡◌, ◌+◌, ◌∷◌, ◌≤◌, [], All, IfOk, Some, flat_map, length, option_map};
ghost use Rattle.group_answer.specs.Sweeping.{AreSwept, IsChosen, members_of};

use crate::asked::Asked;
use crate::chosen::Chosen;
use crate::swept::Swept;
use outside::NoMemory;
use row_codes::{CodeBlock, CodeLimit, four_within};
use search_task::codes_at_place;
use series_core::Rows;
use std::alloc::Global;

/// Four queries as they are swept.
#[derive(Drop)]
pub(crate) struct Four<'a, R: Rows> {
    /// The first of them.
    pub a: Swept<'a, R>,
    /// The second.
    pub b: Swept<'a, R>,
    /// The third.
    pub c: Swept<'a, R>,
    /// The fourth.
    pub d: Swept<'a, R>,
}

impl<'a, R: Rows> Four<'a, R> {
    /// Four of the chosen queries, from place `first` on, which have met no row yet.
    pub(crate) fn begin(
        alloc: Global,
        asked: &Asked<'_, R>,
        chosen: &'a [Chosen<'a, R>],
        first: usize,
    ) -> Result<Four<'a, R>, NoMemory>
        requires room { first + 4 ≤ length chosen.now }
        requires chosen { All (IsChosen R.collection asked.now) chosen.now }
        ensures { IfOk result (AreSwept R.collection asked.now 0) }
    {
        Ok(Four {
            a: Swept::begin(alloc, asked, &chosen[first])?,
            b: Swept::begin(alloc, asked, &chosen[first + 1])?,
            c: Swept::begin(alloc, asked, &chosen[first + 2])?,
            d: Swept::begin(alloc, asked, &chosen[first + 3])?,
        })
    }

    /// Sweeps the members from place `from` up to but not including `to`, where all before these are swept.
    pub(crate) fn sweep(&mut self, asked: &Asked<'_, R>, from: usize, to: usize)
        requires order { from ≤ to }
        requires end { to ≤ length (members_of asked.now.index.now) }
        requires swept { AreSwept R.collection asked.now from self.old }
        ensures { AreSwept R.collection asked.now to self.new }
    {
        match asked.index.codes() {
            Some(codes) => self.sweep_codes(asked, codes, from, to),
            // it has codes where a query is chosen
            None => {}
        }
    }

    // The same by the codes of all members.
    fn sweep_codes(&mut self, asked: &Asked<'_, R>, codes: &[CodeBlock], from: usize, to: usize)
        requires order { from ≤ to }
        requires end { to ≤ length (members_of asked.now.index.now) }
        requires codes { Some codes.now ≡ option_map (flat_map (λ codes. codes)) asked.now.index.now.codes }
        requires swept { AreSwept R.collection asked.now from self.old }
        ensures { AreSwept R.collection asked.now to self.new }
    {
        let (a, b) = (self.a.chosen, self.b.chosen);
        let (c, d) = (self.c.chosen, self.d.chosen);
        let blocks = a.task.code_blocks();
        let mut limits = self.limits();
        for i in from..to {
            let own = codes_at_place(codes, blocks, i);
            let [near_a, near_b, near_c, near_d] = four_within(
                a.task.codes(),
                b.task.codes(),
                c.task.codes(),
                d.task.codes(),
                own,
                &limits,
            );
            let by_a = self.a.meet(asked, i, near_a);
            let by_b = self.b.meet(asked, i, near_b);
            let by_c = self.c.meet(asked, i, near_c);
            let by_d = self.d.meet(asked, i, near_d);
            if by_a || by_b || by_c || by_d {
                limits = self.limits();
            }
        }
    }

    // The most that a distance may be, of each of the four.
    fn limits(&self) -> [CodeLimit; 4]
        ensures { result ≡ self.now.a.most ∷ self.now.b.most ∷ self.now.c.most ∷ self.now.d.most ∷ [] }
    {
        [
            CodeLimit::new(self.a.most),
            CodeLimit::new(self.b.most),
            CodeLimit::new(self.c.most),
            CodeLimit::new(self.d.most),
        ]
    }
}
