//! A reader of certificates, line by line: what has been read, and what is read next.

ghost use Rattle.std.specs.Prelude.{◌≡◌, ◌≤◌, ◌++◌, ◌∷◌, [], OnOk, IfOk};
ghost use Rattle.certificate.specs.Reading.{reading_of, nothing_read, empty_block, is_whole, blocks_read, Takes, TakesNow, head_step, rest_step, query_step, answer_step, start_step, queue_step, leaf_step, step};

use crate::block::{Block, EntryLists, LeafLineList};
use crate::line::{answer, leaf, query, queue, start};
use outside::NoMemory;
use search_limits::MOST_QUEUES;
use series_core::{LabelList, Listed, MAX_BEST, PairList};
use std::alloc::Global;
use std::mem;

/// What is read next.
#[derive(Clone, Copy, PartialEq, Eq)]
pub enum Stage {
    /// The first query, or the end.
    Between,
    /// The answers of the open block, or its start.
    Answers,
    /// The queues and leaves of the open block, or the next query, or the end.
    Lines,
}

/// The finished blocks, and the open one as far as it is read.
#[derive(Drop)]
pub struct Reader {
    done: Vec<Block>,
    stage: Stage,
    block: Block,
}

impl Reader {
    /// Nothing is read.
    pub fn new(alloc: Global) -> Reader
        ensures { reading_of result ≡ nothing_read }
    {
        Reader {
            done: Vec::new(alloc),
            stage: Stage::Between,
            block: empty_block(alloc),
        }
    }

    #[tactic(auto, unfolding(crate::specs::Reading::step_at))]
    /// Reads one more line, and answers whether it is one that may stand here. Where it is not, nothing changes.
    pub fn take(
        &mut self,
        alloc: Global,
        line: &[u8],
        segments: u32,
        labelled: bool,
    ) -> Result<bool, NoMemory>
        requires some { 1 ≤ segments }
        requires few { segments ≤ 16 }
        ensures { Takes result (reading_of self.old) (reading_of self.new) (step segments labelled (reading_of self.old) line.now) }
    {
        match self.stage {
            Stage::Between => self.take_query(alloc, line),
            Stage::Answers => self.take_answer_or_start(line, labelled),
            Stage::Lines => self.take_rest(alloc, line, segments),
        }
    }
}

// A block of which nothing is read.
fn empty_block(alloc: Global) -> Block
    ensures { result ≡ empty_block }
{
    Block {
        answers: PairList {
            items: Vec::new(alloc),
        },
        labels: LabelList {
            items: Vec::new(alloc),
        },
        start: None,
        lines: EntryLists {
            items: Vec::new(alloc),
        },
        leaves: LeafLineList {
            items: Vec::new(alloc),
        },
    }
}

// Appends an item.
fn push<T: Drop>(list: &mut Listed<T>, item: T) -> Result<(), NoMemory>
    ensures { OnOk result (list.new ≡ list.old ++ item ∷ []) }
{
    list.items.push(item)?;
    Ok(())
}

impl Reader {
    // Whether no block is unfinished: a query may come, or the end.
    pub fn is_whole(&self) -> bool
        ensures { result ≡ is_whole (reading_of self.now) }
    {
        match self.stage {
            Stage::Between => true,
            Stage::Answers => false,
            Stage::Lines => !self.block.lines.items.is_empty(),
        }
    }

    // Opens the block of the next query where no block is unfinished.
    #[tactic(auto, unfolding(crate::specs::Reading::query_step))]
    fn take_query(&mut self, alloc: Global, line: &[u8]) -> Result<bool, NoMemory>
        ensures { Takes result (reading_of self.old) (reading_of self.new) (query_step (reading_of self.old) line.now) }
    {
        let open = self.stage != Stage::Between;
        if !self.is_whole() || query(line, self.done.len() as u64 + u64::from(open)).is_none() {
            return Ok(false);
        }
        if open {
            let whole = mem::replace(&mut self.block, empty_block(alloc));
            self.done.push(whole)?;
        }
        self.stage = Stage::Answers;
        Ok(true)
    }

    // Takes an answer, or else the start.
    fn take_answer_or_start(&mut self, line: &[u8], labelled: bool) -> Result<bool, NoMemory>
        ensures { Takes result (reading_of self.old) (reading_of self.new)
            (head_step labelled (reading_of self.old) line.now) }
    {
        if self.take_answer(line, labelled)? {
            return Ok(true);
        }
        Ok(self.take_start(line))
    }

    // Takes an answer.
    #[tactic(auto, unfolding(crate::specs::Reading::answer_step))]
    fn take_answer(&mut self, line: &[u8], labelled: bool) -> Result<bool, NoMemory>
        ensures { Takes result (reading_of self.old) (reading_of self.new) (answer_step labelled (reading_of self.old) line.now) }
    {
        let count = self.block.pairs().len() as u64;
        if count >= u64::from(MAX_BEST) {
            return Ok(false);
        }
        let Some((pair, label)) = answer(line, labelled, count + 1) else {
            return Ok(false);
        };
        push(&mut self.block.answers, pair)?;
        if let Some(label) = label {
            push(&mut self.block.labels, label)?;
        }
        Ok(true)
    }

    // Takes the start.
    #[tactic(auto, unfolding(crate::specs::Reading::start_step))]
    fn take_start(&mut self, line: &[u8]) -> bool
        ensures { TakesNow result (reading_of self.old) (reading_of self.new) (start_step (reading_of self.old) line.now) }
    {
        let Some(start) = start(line) else {
            return false;
        };
        self.stage = Stage::Lines;
        self.block.start = start;
        true
    }

    // Takes a queue, or else a leaf, or else the next query.
    fn take_rest(&mut self, alloc: Global, line: &[u8], segments: u32) -> Result<bool, NoMemory>
        requires some { 1 ≤ segments }
        requires few { segments ≤ 16 }
        ensures { Takes result (reading_of self.old) (reading_of self.new)
            (rest_step segments (reading_of self.old) line.now) }
    {
        if self.take_queue(alloc, line)? {
            return Ok(true);
        }
        if self.take_leaf(line, segments)? {
            return Ok(true);
        }
        self.take_query(alloc, line)
    }

    // Takes a queue.
    #[tactic(auto, unfolding(crate::specs::Reading::queue_step))]
    fn take_queue(&mut self, alloc: Global, line: &[u8]) -> Result<bool, NoMemory>
        ensures { Takes result (reading_of self.old) (reading_of self.new) (queue_step (reading_of self.old) line.now) }
    {
        let count = self.block.queue_count();
        if !self.block.leaf_lines().is_empty() || count >= u64::from(MOST_QUEUES) {
            return Ok(false);
        }
        let Some(entries) = queue(alloc, line, count)? else {
            return Ok(false);
        };
        push(&mut self.block.lines, entries)?;
        Ok(true)
    }

    // Takes a leaf.
    #[tactic(auto, unfolding(crate::specs::Reading::leaf_step))]
    fn take_leaf(&mut self, line: &[u8], segments: u32) -> Result<bool, NoMemory>
        requires some { 1 ≤ segments }
        requires few { segments ≤ 16 }
        ensures { Takes result (reading_of self.old) (reading_of self.new) (leaf_step segments (reading_of self.old) line.now) }
    {
        let count = self.block.leaf_lines().len() as u64;
        if self.block.queue_count() == 0 || count > u64::from(u32::MAX) {
            return Ok(false);
        }
        let Some(leaf) = leaf(line, segments, count) else {
            return Ok(false);
        };
        push(&mut self.block.leaves, leaf)?;
        Ok(true)
    }

    /// All blocks, the open one too.
    pub fn finish(self) -> Result<Vec<Block>, NoMemory>
        ensures { IfOk result (λ blocks. blocks.items ≡ blocks_read (reading_of self)) }
    {
        let Reader {
            mut done,
            stage,
            block,
        } = self;
        if stage != Stage::Between {
            done.push(block)?;
        }
        Ok(done)
    }
}
