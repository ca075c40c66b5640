//! One query as it is swept: its list, and the most that a distance may still be.
ghost use Rattle.std.specs.Prelude.{◌≡◌, ◌+◌, ◌<◌, IfOk, false, length};
ghost use Rattle.group_answer.specs.Sweeping.{IsChosen, IsFarther, IsSwept, members_of};

use crate::asked::Asked;
use crate::chosen::Chosen;
use outside::NoMemory;
use search_task::most_to_add;
use series_core::{KBest, Rows};
use std::alloc::Global;

/// A query as it is swept.
#[derive(Drop)]
pub(crate) struct Swept<'a, R: Rows> {
    /// The query.
    pub chosen: &'a Chosen<'a, R>,
    /// The most that a distance may be whose pair is added.
    pub most: u64,
    /// The k nearest so far.
    pub list: KBest,
}

impl<'a, R: Rows> Swept<'a, R> {
    /// A chosen query that has met no row yet.
    pub(crate) fn begin(
        alloc: Global,
        asked: &Asked<'_, R>,
        chosen: &'a Chosen<'a, R>,
    ) -> Result<Swept<'a, R>, NoMemory>
        requires chosen { IsChosen R.collection asked.now chosen.now }
        ensures { IfOk result (IsSwept R.collection asked.now 0) }
    {
        let _ = asked;
        let list = KBest::new(alloc, chosen.task.k())?;
        let most = most_to_add(chosen.limit, &list);
        Ok(Swept { chosen, most, list })
    }

    /// Measures the member at a place where it is near, adds its pair where it is no farther than may be, and tells whether that has
    /// changed the most that a distance may be.
    #[inline(always)]
    pub(crate) fn meet(&mut self, asked: &Asked<'_, R>, place: usize, near: bool) -> bool
        requires place { place < length (members_of asked.now.index.now) }
        requires swept { IsSwept R.collection asked.now place self.old }
        requires far { IsFarther asked.now.index.now place near self.old }
        ensures swept { IsSwept R.collection asked.now (place + 1) self.new }
        ensures chosen { self.new.chosen ≡ self.old.chosen }
        ensures same { result ≡ false → self.new.most ≡ self.old.most }
    {
        if !near {
            return false;
        }
        let chosen = self.chosen;
        let before = self.most;
        let number = asked.index.members()[place].number;
        self.most = chosen
            .task
            .measure(number, chosen.limit, before, &mut self.list);
        self.most != before
    }
}
