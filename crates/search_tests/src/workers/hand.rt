//! What two workers share who take turns in one thread: the best-so-far, by a pass each, and root children and queues in plain fields.
//! Its one rule: the last call and its reply are noted.
ghost use Rattle.std.specs.Prelude.{◌≡◌, ◌≤◌, IfOk, length};
ghost use Rattle.search_task.specs.Questions.{last_of};

use best_word::{BestWord, WordPass};
use outside::NoMemory;
use query_core::{Call, OneThread, Reply, Shared, Task};
use series_core::{Entry, Flat, PopReply, PutReply};
use std::alloc::Global;
use std::marker::Model;
use std::test::Fail;
use subtree_build::Index;

/// It is seen as what it holds in plain fields.
#[derive(Drop)]
pub(super) struct Hand<'a> {
    held: OneThread<'a, Flat>,
    word: BestWord,
    first: WordPass,
    second: WordPass,
    // whether the second worker calls
    by_second: bool,
    // the last call and its reply
    last: Option<(Call, Reply)>,
}

impl<'a> Model for Hand<'a> {
    ghost use Rattle.std.specs.Prelude.{◌≡◌};
    ghost use Rattle.search_machine.specs.Shared.{Held};

    ghost Value = { Held };

    ghost view = { λ h. h.held };

    ghost invariant = { λ h. (h.word.callers ≡ 2) × (h.first.best ≡ h.word) × (h.second.best ≡ h.word)
        × (h.first.floor ≡ h.held.floor) × (h.second.floor ≡ h.held.floor) };
}

impl<'a> Hand<'a> {
    /// No root child is claimed, the one queue is empty, and the best-so-far is the limit.
    pub(super) fn open(
        alloc: Global,
        task: &'a Task<'a, Flat>,
        index: &Index,
        limit: u64,
    ) -> Result<Hand<'a>, Fail>
        requires { last_of task.now ≤ limit }
        ensures floor { IfOk result (λ h. h.floor ≡ last_of task.now) }
        ensures roots { IfOk result (λ h. h.roots ≡ length index.now.roots) }
    {
        let held = OneThread::new(alloc, task, index, 1, limit)?;
        let (word, mut passes) = BestWord::begin(alloc, task, limit, 2)?;
        let (Some(second), Some(first)) = (passes.pop(), passes.pop()) else {
            return Err(Fail::new("fewer passes than workers"));
        };
        Ok(Hand {
            held,
            word,
            first,
            second,
            by_second: false,
            last: None,
        })
    }

    /// The next call is the first or the second worker's.
    pub(super) fn is_for(&mut self, second: bool)
        ensures { self.new ≡ self.old }
    {
        self.by_second = second;
        self.last = None;
    }

    /// The last call and its reply; none where nothing was called since it is for this worker.
    pub(super) fn last(&self) -> Option<(Call, Reply)> {
        self.last
    }

    /// Ends the word, with both passes back: the least of its start and of all offers.
    pub(super) fn close(self, alloc: Global) -> Result<u64, NoMemory> {
        let Hand {
            word,
            first,
            second,
            ..
        } = self;
        let mut passes = Vec::with_capacity(alloc, 2)?;
        passes.push(first)?;
        passes.push(second)?;
        Ok(word.close(passes))
    }
}

impl<'a> Shared for Hand<'a> {
    ghost floor = { λ h. h.floor };

    ghost roots = { λ h. h.roots };

    ghost did = { λ before call reply now. Unit {0} };

    fn claim(&mut self) -> Option<u64> {
        let root = self.held.claim();
        self.last = Some((Call::Claim, Reply::Claimed(root)));
        root
    }

    fn read(&mut self) -> u64 {
        let seen = if self.by_second {
            self.word.read(&mut self.second)
        } else {
            self.word.read(&mut self.first)
        };
        self.last = Some((Call::Read, Reply::Seen(seen)));
        seen
    }

    fn offer(&mut self, v: u64) -> u64 {
        let before = if self.by_second {
            self.word.offer(&mut self.second, v)
        } else {
            self.word.offer(&mut self.first, v)
        };
        self.last = Some((Call::Offer(v), Reply::Offered(before)));
        before
    }

    fn put(&mut self, queue: u32, entry: Entry) -> PutReply {
        let told = self.held.put(queue, entry);
        self.last = Some((Call::Put(queue, entry), Reply::PutTold(told)));
        told
    }

    fn pop(&mut self, queue: u32, limit: u64) -> PopReply {
        let told = self.held.pop(queue, limit);
        self.last = Some((Call::Pop(queue, limit), Reply::PopTold(told)));
        told
    }
}
