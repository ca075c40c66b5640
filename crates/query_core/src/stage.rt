//! What a worker does next: its phase, and with a leaf in its hand the leaf's lower bound.
ghost use Rattle.std.specs.Prelude.{◌≡◌, ℕ, suc, ◌<◌, ◌≤◌, cond, nat_lt};
ghost use Rattle.lower_bound.specs.Bound.{View};
ghost use Rattle.subtree_build.specs.Index.{IndexParts};
ghost use Rattle.search_machine.specs.declared.phase.Phase.TheVariants.{Aim, Done, Offer};
ghost use Rattle.search_machine.specs.Workers.{onward};
ghost use Rattle.query_core.specs.Working.{OnwardInRange, StageInRange, phase_of};

use search_limits::MOST_QUEUES;
use search_machine::Onward;
use series_core::Entry;

/// What the next turn of a worker does. It is a phase of the machine, and keeps the bound of the leaf in its hand.
#[derive(Clone, Copy, PartialEq, Eq, Debug)]
pub(crate) enum Stage {
    /// It claims a root child.
    Claim,
    /// It looks for the next leaf of its root child.
    Look,
    /// It puts this leaf into its queue.
    Give(Entry),
    /// The put of this leaf was refused: it scans the leaf or cuts it.
    Late(Entry),
    /// It reads the limit of the pop at this place of its round.
    Aim(u32),
    /// It pops at this place of its round, with this limit.
    Pop(u32, u64),
    /// It offers the distance of its k-th pair.
    Offer(Onward),
    /// It has ended.
    Done,
}

impl Stage {
    /// Where it goes on.
    pub(crate) fn onward(next: Onward) -> Stage
        ensures phase { phase_of result ≡ onward next }
        ensures range { (view : View) (ix : IndexParts) (queues : ℕ) → OnwardInRange queues next
            → StageInRange view ix queues result }
    {
        match next {
            Onward::Look => Stage::Look,
            Onward::Aim(place) => Stage::Aim(place),
        }
    }

    /// After a queue that is closed comes the next of the round, and after the last nothing.
    pub(crate) fn after_close(place: u32, queues: u32) -> Stage
        requires few { queues ≤ MOST_QUEUES }
        requires place { place < queues }
        ensures phase { phase_of result ≡ cond (nat_lt (suc place) queues) (Aim (suc place)) Done }
        ensures range { (view : View) (ix : IndexParts) → StageInRange view ix queues result }
    {
        if place + 1 < queues {
            Stage::Aim(place + 1)
        } else {
            Stage::Done
        }
    }

    /// After a scan comes an offer where the k-th pair is nearer than the limit, and else it goes on.
    pub(crate) fn after_scan(worst: u64, limit: u64, next: Onward) -> Stage
        ensures phase { phase_of result ≡ cond (nat_lt worst limit) (Offer next) (onward next) }
        ensures range { (view : View) (ix : IndexParts) (queues : ℕ) → OnwardInRange queues next
            → StageInRange view ix queues result }
    {
        if worst < limit {
            Stage::Offer(next)
        } else {
            Stage::onward(next)
        }
    }
}
