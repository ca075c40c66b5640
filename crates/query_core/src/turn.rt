//! A worker's turn: one call on what is shared, and what the worker makes of the reply. One function a phase.
ghost use Rattle.std.specs.Prelude.{◌≡◌, ◌≢◌, ℕ, ◌<◌, ◌≤◌, ◌↔◌, false, length};
ghost use Rattle.series_core.specs.declared.distance.TheConstants.{NONE};
ghost use Rattle.search_machine.specs.Ground.{worst};
ghost use Rattle.search_machine.specs.declared.calls.Reply.{Reply as MachineReply};
ghost use Rattle.search_machine.specs.Workers.{Worker as Shown, onward, scanned_by};
ghost use Rattle.search_task.specs.Questions.{last_of, view_in};
ghost use Rattle.query_core.specs.Portions.{portion_of};
ghost use Rattle.query_core.specs.Walks.{IsEntry};
ghost use Rattle.query_core.specs.Turning.{Acts, Turns, search_of, taken_by};
ghost use Rattle.query_core.specs.Working.{IsOf, OnwardInRange, Shows, is_marked};

use crate::limits::{most_of, note_scan};
use crate::shared::Shared;
use crate::stage::Stage;
use crate::worker::Worker;
use search_machine::{Onward, Phase, Reply};
use search_task::distance_of_worst;
use series_core::{Entry, PopReply, PutReply, Rows, far};

/// Whether a worker has more turns.
#[derive(Clone, Copy, PartialEq, Eq, Debug)]
pub enum Turn {
    /// It has.
    More,
    /// It is done.
    Done,
}

impl<'a, R: Rows> Worker<'a, R> {
    /// One turn: exactly one call on the hand, by the worker's phase; the worker becomes what the machine's worker becomes by
    /// the reply, or by a lower limit where it shares limits of portions. It takes no memory of its own. Done exactly where the worker is
    /// done now.
    pub fn turn<S: Shared>(&mut self, hand: &mut S) -> Turn
        requires running { self.old.phase ≢ Phase.Done }
        requires floor { S.floor hand.old ≡ last_of self.old.question }
        requires roots { S.roots hand.old ≡ length self.old.index.roots }
        ensures turns { Turns S.did hand.old hand.new self.old self.new }
        ensures done { (result ≡ Turn.Done) ↔ (self.new.phase ≡ Phase.Done) }
        ensures place { IsOf self.old.question self.old.index self.old.queues self.old.number self.new }
        ensures shares { self.new.shares ≡ self.old.shares }
        ensures hand { (S.floor hand.new ≡ S.floor hand.old) × (S.roots hand.new ≡ S.roots hand.old) }
    {
        // the reply is the one by which the turn is a turn of the machine
        let _reply = self.act(hand);
        if self.is_done() {
            Turn::Done
        } else {
            Turn::More
        }
    }

    // The turn, with the reply to its call.
    fn act<S: Shared>(&mut self, hand: &mut S) -> Reply
        requires running { self.old.phase ≢ Phase.Done }
        requires floor { S.floor hand.old ≡ last_of self.old.question }
        requires roots { S.roots hand.old ≡ length self.old.index.roots }
        ensures { (by : MachineReply) × Acts S.floor S.roots S.did hand.old hand.new self.old self.new result by }
    {
        match self.stage {
            Stage::Claim => self.claim(hand),
            Stage::Look => self.look(hand),
            Stage::Give(entry) => self.give(hand, entry),
            Stage::Late(entry) => self.scan_late(hand, entry),
            Stage::Aim(place) => self.aim(hand, place),
            Stage::Pop(place, limit) => self.pop(hand, place, limit),
            Stage::Offer(next) => self.offer(hand, next),
            Stage::Done => unreachable!(),
        }
    }

    // Claims a root child and begins to walk below it; with none left, aims at the first queue of its round.
    fn claim<S: Shared>(&mut self, hand: &mut S) -> Reply
        requires phase { self.old.phase ≡ Phase.Claim }
        requires roots { S.roots hand.old ≡ length self.old.index.roots }
        ensures { Acts S.floor S.roots S.did hand.old hand.new self.old self.new result result }
    {
        match hand.claim() {
            Some(root) => {
                self.walk.begin(root as u32);
                self.stage = Stage::Look;
                Reply::Claimed(Some(root))
            }
            None => {
                self.stage = Stage::Aim(0);
                Reply::Claimed(None)
            }
        }
    }

    // Looks for the next leaf below its root child; with none left, claims again.
    fn look<S: Shared>(&mut self, hand: &mut S) -> Reply
        requires phase { self.old.phase ≡ Phase.Look }
        requires floor { S.floor hand.old ≡ last_of self.old.question }
        ensures { Acts S.floor S.roots S.did hand.old hand.new self.old self.new result result }
    {
        let limit = hand.read();
        match self.walk.next(self.search.view(), far(limit), self.start) {
            Some(entry) => {
                self.stage = Stage::Give(entry);
                Reply::Seen(limit)
            }
            None => {
                self.stage = Stage::Claim;
                Reply::Seen(limit)
            }
        }
    }

    // Puts a leaf into its queue; where that is refused, keeps it in hand.
    fn give<S: Shared>(&mut self, hand: &mut S, entry: Entry) -> Reply
        requires phase { self.old.phase ≡ Phase.Give entry.leaf }
        requires entry { IsEntry (view_in self.old.question) self.old.index entry }
        ensures { Acts S.floor S.roots S.did hand.old hand.new self.old self.new result result }
    {
        let told = hand.put(entry.leaf % self.queues, entry);
        self.stage = match told {
            PutReply::Placed => Stage::Look,
            PutReply::Shut(_) | PutReply::Filled(_) => Stage::Late(entry),
        };
        Reply::PutTold(told)
    }

    // Scans the leaf in its hand, whose put was refused, or cuts it where its bound is above the limit.
    fn scan_late<S: Shared>(&mut self, hand: &mut S, entry: Entry) -> Reply
        requires phase { self.old.phase ≡ Phase.Late entry.leaf }
        requires entry { IsEntry (view_in self.old.question) self.old.index entry }
        requires floor { S.floor hand.old ≡ last_of self.old.question }
        ensures { Acts S.floor S.roots S.did hand.old hand.new self.old self.new result result }
    {
        let limit = hand.read();
        if entry.bound <= far(limit) {
            self.take(entry.leaf, limit, Onward::Look);
            Reply::Seen(limit)
        } else {
            self.stage = Stage::Look;
            Reply::Seen(limit)
        }
    }

    // Reads the limit of the next pop, which is lower where the limits of all portions are.
    fn aim<S: Shared>(&mut self, hand: &mut S, place: u32) -> Reply
        requires phase { self.old.phase ≡ Phase.Aim place }
        requires place { place < self.old.queues }
        requires floor { S.floor hand.old ≡ last_of self.old.question }
        ensures { (limit : ℕ) × Acts S.floor S.roots S.did hand.old hand.new self.old self.new result (MachineReply.Seen limit) }
    {
        let most = self.most();
        let seen = hand.read();
        let limit = seen.min(most);
        self.stage = Stage::Pop(place, limit);
        Reply::Seen(seen)
    }

    // Pops from the queue at this place of its round, and scans what it gives; where the queue is closed, goes on to the next,
    // and is done after the last.
    fn pop<S: Shared>(&mut self, hand: &mut S, place: u32, limit: u64) -> Reply
        requires phase { self.old.phase ≡ Phase.Pop place limit }
        requires place { place < self.old.queues }
        ensures { Acts S.floor S.roots S.did hand.old hand.new self.old self.new result result }
    {
        match hand.pop((self.number + place) % self.queues, limit) {
            PopReply::Leaf(entry) => {
                self.take(entry.leaf, limit, Onward::Aim(place));
                Reply::PopTold(PopReply::Leaf(entry))
            }
            PopReply::Closed(kept) => {
                self.stage = Stage::after_close(place, self.queues);
                Reply::PopTold(PopReply::Closed(kept))
            }
        }
    }

    // Offers the distance of its k-th pair.
    fn offer<S: Shared>(&mut self, hand: &mut S, next: Onward) -> Reply
        requires phase { self.old.phase ≡ Phase.Offer next }
        requires next { OnwardInRange self.old.queues next }
        requires floor { S.floor hand.old ≡ last_of self.old.question }
        ensures { Acts S.floor S.roots S.did hand.old hand.new self.old self.new result result }
    {
        let offered = hand.offer(self.worst());
        self.stage = Stage::onward(next);
        Reply::Offered(offered)
    }

    /// Whether it scanned the leaf.
    pub(crate) fn has_scanned(&self, leaf: u32) -> bool
        requires { leaf < length self.now.index.leaves }
        ensures mark { result ≡ is_marked self.now.marks leaf }
        ensures within { leaf < length self.now.marks }
    {
        self.marks[leaf as usize]
    }

    // The distance of its k-th pair, or `NONE` where it holds fewer.
    fn worst(&self) -> u64
        ensures worst { result ≡ worst (search_of self.now 1) self.now.list }
        ensures low { last_of self.now.question ≤ result }
    {
        distance_of_worst(&self.list)
    }

    // What is no less than the limits of all portions; `NONE` where it knows none.
    fn most(&mut self) -> u64
        ensures same { self.new ≡ self.old }
        ensures low { last_of self.old.question ≤ result }
        ensures none { self.old.shares ≡ false → result ≡ NONE }
    {
        most_of(&mut self.limits)
    }

    // The portion to which a leaf belongs.
    fn portion_of(&self, leaf: u32) -> u32
        ensures { result ≡ portion_of (search_of self.now 1) leaf }
    {
        match self.start {
            Some(start) if start == leaf => 0,
            _ => leaf % self.queues,
        }
    }

    // Scans a leaf that it has not scanned with this limit; a number that is no leaf, and a leaf that it has scanned, are
    // passed over.
    fn take(&mut self, leaf: u32, limit: u64, next: Onward)
        requires { OnwardInRange self.old.queues next }
        ensures place { IsOf self.old.question self.old.index self.old.queues self.old.number self.new }
        ensures taken { (workers : ℕ) (m : Shown) → Shows self.old m
            → Shows self.new (taken_by (search_of self.old workers) m leaf limit next) }
        ensures shares { self.new.shares ≡ self.old.shares }
    {
        if leaf < self.search.leaf_count() && !self.has_scanned(leaf) {
            self.scan(leaf, limit, next);
        } else {
            self.stage = Stage::onward(next);
        }
    }

    // Scans a leaf with this limit; offers where its list improves on the limit, and else goes on.
    fn scan(&mut self, leaf: u32, limit: u64, next: Onward)
        requires leaf { leaf < length self.old.index.leaves }
        requires new { is_marked self.old.marks leaf ≡ false }
        requires next { OnwardInRange self.old.queues next }
        ensures place { IsOf self.old.question self.old.index self.old.queues self.old.number self.new }
        ensures scanned { (workers : ℕ) (m : Shown) → Shows self.old m
            → Shows self.new (scanned_by (search_of self.old workers) m leaf limit next) }
        ensures shares { self.new.shares ≡ self.old.shares }
    {
        let portion = self.portion_of(leaf);
        let rank = self.search.k().div_ceil(self.queues);
        self.search.scan_boxed(leaf, limit, &mut self.list);
        self.marks[leaf as usize] = true;
        note_scan(&mut self.limits, portion, rank, &self.list);
        self.stage = Stage::after_scan(distance_of_worst(&self.list), limit, next);
    }
}
