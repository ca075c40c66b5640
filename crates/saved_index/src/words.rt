//! The full words of all series, by number, and of members, by theirs. Words are made once a series, in the order of the rows, by workers
//! side by side, each for a stretch of the series, whose list no other touches; and workers give them to members, each to a stretch of these.
ghost use Rattle.std.specs.Prelude.{◌≡◌, ◌*◌, ◌<◌, ◌≤◌, IfOk, length, map, max};
ghost use Rattle.std.specs.Thread.{IsSync};
ghost use Rattle.isax_word.specs.FullWord.{full_word};
ghost use Rattle.subtree_build.specs.Members.{series_at, with_own_word};
ghost use Rattle.saved_index.specs.Membership.{CanHaveWords, IsStretch, words_between};
ghost use Rattle.saved_index.specs.Words.{HasWords, HasWordsFor, next_from, word_lists};

use isax_word::{Full, Layout, Member};
use outside::NoMemory;
use series_core::{Listed, Rows};
use std::alloc::Global;
use std::thread::{Threads, join, join_mut};

/// The full words of a stretch of the series, in their order.
type WordList = Listed<Full>;

/// The full words of all series, in lists of `each` words but for the last ones.
#[derive(Drop)]
pub(crate) struct SeriesWords {
    each: u32,
    lists: Vec<WordList>,
}

/// The words of the series from one number up to, but not including, another, by one worker in this thread.
fn one_list<R: Rows>(
    alloc: Global,
    rows: &R,
    layout: &Layout,
    from: u32,
    to: u32,
) -> Result<WordList, NoMemory>
    requires { IsStretch (R.collection rows.now) layout.now from to }
    ensures { IfOk result (λ list. list ≡ words_between (R.collection rows.now) layout.now from to) }
{
    // for the fact that the rows are a collection
    let _count = rows.count();
    let mut items = Vec::with_capacity(alloc, (to - from) as usize)?;
    for number in from..to {
        items.push(Full::of(layout, rows.row(number)))?;
    }
    Ok(Listed { items })
}

/// The number at which the list behind one of `each` words from a number on begins: no list goes past the last series.
fn next_of<R: Rows>(rows: &R, each: u32, from: u32) -> u32
    requires { from ≤ length (R.collection rows.now).series }
    ensures { result ≡ next_from (R.collection rows.now) each from }
{
    if rows.count() - from > each {
        from + each
    } else {
        rows.count()
    }
}

/// The words of a list of `each` from a number on and of `behind` lists more, each list by a worker: this thread starts all others, one after
/// another, so that none waits until another was started.
#[cycle(words)]
fn word_lists<H: Threads + Sync, R: Rows + Sync>(
    rt: &H,
    alloc: Global,
    rows: &R,
    layout: &Layout,
    each: u32,
    from: u32,
    behind: u32,
) -> Result<Vec<WordList>, NoMemory>
    requires points { layout.now.cuts.row_length ≡ (R.collection rows.now).points }
    requires inside { from ≤ length (R.collection rows.now).series }
    ensures { IfOk result (λ lists. lists.items ≡ word_lists (R.collection rows.now) layout.now each behind from) }
{
    let next = next_of(rows, each, from);
    let mut lists = Vec::with_capacity(alloc, 1)?;
    if behind == 0 {
        lists.push(one_list(alloc, rows, layout, from, next)?)?;
        return Ok(lists);
    }
    let fewer = behind - 1;
    let front = || -> Result<WordList, NoMemory>
        requires { IsSync R.row × IsStretch (R.collection rows.now) layout.now from next }
        ensures { IfOk result (λ list. list ≡ words_between (R.collection rows.entry.now) layout.entry.now from next) }
    { one_list(alloc, rows, layout, from, next) };
    let back = || -> Result<Vec<WordList>, NoMemory>
        requires { IsSync H.row × IsSync R.row × (layout.now.cuts.row_length ≡ (R.collection rows.now).points)
            × (next ≤ length (R.collection rows.now).series) }
        ensures { IfOk result (λ lists. lists.items ≡ word_lists (R.collection rows.entry.now) layout.entry.now each fewer next) }
    { word_lists(rt, alloc, rows, layout, each, next, fewer) };
    let (first, rest) = join(rt, front, back);
    lists.push(first?)?;
    let mut rest = rest?;
    lists.append(&mut rest)?;
    Ok(lists)
}

/// How many words a list has at most where so many workers share the series.
fn share_of(count: u32, workers: u32) -> u32
    requires { count ≤ 16777216 }
    ensures some { 1 ≤ result }
    ensures enough { count ≤ (max 1 workers) * result }
{
    count / workers.max(1) + 1
}

/// The words of all series, made by so many workers.
pub(crate) fn words_for<H: Threads + Sync, R: Rows + Sync>(
    rt: &H,
    alloc: Global,
    rows: &R,
    layout: &Layout,
    workers: u32,
) -> Result<SeriesWords, NoMemory>
    requires { layout.now.cuts.row_length ≡ (R.collection rows.now).points }
    ensures { IfOk result (HasWords (R.collection rows.now) layout.now) }
{
    let each = share_of(rows.count(), workers);
    let lists = word_lists(rt, alloc, rows, layout, each, 0, workers.max(1) - 1)?;
    Ok(SeriesWords { each, lists })
}

/// The same by one worker, in the caller's thread.
pub(crate) fn words_alone<R: Rows>(
    alloc: Global,
    rows: &R,
    layout: &Layout,
) -> Result<SeriesWords, NoMemory>
    requires { layout.now.cuts.row_length ≡ (R.collection rows.now).points }
    ensures { IfOk result (HasWords (R.collection rows.now) layout.now) }
{
    let each = share_of(rows.count(), 1);
    let next = next_of(rows, each, 0);
    let mut lists = Vec::with_capacity(alloc, 1)?;
    lists.push(one_list(alloc, rows, layout, 0, next)?)?;
    Ok(SeriesWords { each, lists })
}

impl SeriesWords {
    /// The word of the series of this number.
    #[inline(always)]
    fn at<R: Rows>(&self, rows: &R, layout: &Layout, number: u32) -> Full
        requires words { HasWords (R.collection rows.now) layout.now self.now }
        requires series { number < length (R.collection rows.now).series }
        ensures { result ≡ full_word layout.now (series_at (R.collection rows.now) number) }
    {
        let _ = rows;
        let _ = layout;
        let list = &self.lists[(number / self.each) as usize];
        list.items[(number % self.each) as usize]
    }
}

/// Gives each member the word of its series, by so many workers: this thread starts all others, one after another.
#[cycle(given)]
pub(crate) fn give_words<H: Threads + Sync, R: Rows + Sync>(
    rt: &H,
    rows: &R,
    layout: &Layout,
    words: &SeriesWords,
    members: &mut [Member],
    workers: u32,
)
    requires { HasWordsFor (R.collection rows.now) layout.now words.now members.old }
    ensures { members.new ≡ map (with_own_word (R.collection rows.now) layout.now) members.old }
{
    if workers < 2 {
        give_words_in_turn(rows, layout, words, members);
        return;
    }
    let rest = workers - 1;
    let mid = members.len() / workers as usize;
    let (low, high) = members.split_at_mut(mid);
    let mut front = ||
        requires { IsSync R.row × HasWordsFor (R.collection rows.now) layout.now words.now low.now }
        ensures { low.exit.now ≡ map (with_own_word (R.collection rows.entry.now) layout.entry.now) low.entry.now }
    { give_words_in_turn(rows, layout, words, low) };
    let mut back = ||
        requires { IsSync H.row × IsSync R.row × HasWordsFor (R.collection rows.now) layout.now words.now high.now }
        ensures { high.exit.now ≡ map (with_own_word (R.collection rows.entry.now) layout.entry.now) high.entry.now }
    { give_words(rt, rows, layout, words, high, rest) };
    join_mut(rt, &mut front, &mut back);
}

/// The same by one worker, in the caller's thread.
pub(crate) fn give_words_in_turn<R: Rows>(
    rows: &R,
    layout: &Layout,
    words: &SeriesWords,
    members: &mut [Member],
)
    requires { HasWordsFor (R.collection rows.now) layout.now words.now members.old }
    ensures { members.new ≡ map (with_own_word (R.collection rows.now) layout.now) members.old }
{
    for i in 0..members.len() {
        let number = members[i].number;
        let full = words.at(rows, layout, number);
        members[i] = Member { number, full };
    }
}
