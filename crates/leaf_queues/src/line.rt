//! Waiting entries in one line: at its front a run of them in order, and behind it the rest, dealt into buckets by bound or
//! in no order. A bucket becomes a run when it is reached.
ghost use Rattle.std.specs.Prelude.{◌≡◌, ◌-◌, ◌<◌, ◌≤◌, length, take, drop, IfSome};
ghost use Rattle.std.specs.List.Sorted.{IsPermutation};
ghost use Rattle.series_core.specs.EntryOrder.{entry_before};
ghost use Rattle.leaf_queues.specs.Lines.{bucket_of, IsDealt, IsCut, IsRun};

use series_core::Entry;

/// How bounds are cut into buckets: each has `2^shift` bounds, the first those from `least` on.
#[derive(Clone, Copy, Debug)]
pub struct Buckets {
    least: u64,
    shift: u32,
}

impl Buckets {
    // At most 256 buckets for these entries.
    fn over(entries: &[Entry]) -> Buckets
        ensures { result.shift < 64 }
    {
        let mut least = u64::MAX;
        let mut greatest = 0;
        for entry in entries {
            least = least.min(entry.bound);
            greatest = greatest.max(entry.bound);
        }
        let bits = 64 - greatest.saturating_sub(least).leading_zeros();
        Buckets {
            least,
            shift: bits.saturating_sub(8),
        }
    }

    /// The bucket of a bound.
    fn bucket(&self, bound: u64) -> u64
        requires { self.now.shift < 64 }
        ensures { result ≡ bucket_of self.now bound }
    {
        bound.saturating_sub(self.least) >> self.shift
    }
}

/// Deals the entries into at most 256 buckets, in the order of the bounds.
pub fn deal(entries: &mut [Entry]) -> Buckets
    ensures permutation { IsPermutation entries.old entries.new }
    ensures dealt { IsDealt result 0 entries.new }
{
    let buckets = Buckets::over(entries);
    entries.sort_unstable_by_key(|entry| buckets.bucket(entry.bound));
    buckets
}

/// Sorts the first bucket of entries that are dealt, and answers how many it has.
pub fn sort_first_bucket(entries: &mut [Entry], buckets: &Buckets) -> usize
    requires dealt { IsDealt buckets.now 0 entries.old }
    ensures permutation { IsPermutation entries.old entries.new }
    ensures some { 0 < length entries.old → 0 < result }
    ensures inside { result ≤ length entries.new }
    ensures run { IsRun result entries.new }
    ensures dealt { IsDealt buckets.now result entries.new }
{
    let end = first_end(entries, buckets);
    sort_front(entries, end);
    end
}

// Whether the one entry comes before the other: a lesser bound, or as great a bound with a lesser leaf.
fn comes_before(one: &Entry, other: &Entry) -> bool
    ensures { result ≡ entry_before one.now other.now }
{
    one < other
}

// Where the first bucket of entries that are dealt ends.
fn first_end(entries: &[Entry], buckets: &Buckets) -> usize
    requires dealt { IsDealt buckets.now 0 entries.now }
    ensures some { 0 < length entries.now → 0 < result }
    ensures inside { result ≤ length entries.now }
    ensures cut { IsCut result entries.now }
{
    let Some(first) = entries.first() else {
        return 0;
    };
    let bucket = buckets.bucket(first.bound);
    let mut end = 1;
    while end < entries.len() && buckets.bucket(entries[end].bound) == bucket {
        end += 1;
    }
    end
}

// Sorts the first `n` entries, none of which comes after one behind them.
fn sort_front(entries: &mut [Entry], n: usize)
    requires inside { n ≤ length entries.old }
    requires cut { IsCut n entries.old }
    ensures permutation { IsPermutation entries.old entries.new }
    ensures run { IsRun n entries.new }
    ensures behind { drop n entries.new ≡ drop n entries.old }
{
    let (front, _) = entries.split_at_mut(n);
    front.sort_unstable();
}

/// The run of entries that begin with one of `run` entries and may be dealt behind it. Where it is empty, the first bucket
/// becomes the run, and the entries are dealt first where they are in no order. Answers how many the run has.
pub fn reach(entries: &mut [Entry], run: usize, buckets: &mut Option<Buckets>) -> usize
    requires inside { run ≤ length entries.old }
    requires run { IsRun run entries.old }
    requires dealt { IfSome buckets.old (λ b. IsDealt b run entries.old) }
    ensures permutation { IsPermutation entries.old entries.new }
    ensures some { 0 < length entries.old → 0 < result }
    ensures inside { result ≤ length entries.new }
    ensures run { IsRun result entries.new }
    ensures dealt { IfSome buckets.new (λ b. IsDealt b result entries.new) }
{
    if run > 0 {
        return run;
    }
    let dealt = match *buckets {
        Some(dealt) => dealt,
        None => deal(entries),
    };
    *buckets = Some(dealt);
    sort_first_bucket(entries, &dealt)
}

/// Takes in the last entry, behind a run and others: where it comes before the last of the run, it joins the run. Answers how
/// many the run has.
pub fn take_in(entries: &mut [Entry], run: usize) -> usize
    requires inside { run < length entries.old }
    requires run { IsRun run (take (length entries.old - 1) entries.old) }
    ensures permutation { IsPermutation entries.old entries.new }
    ensures stays { run ≤ result }
    ensures inside { result ≤ length entries.new }
    ensures run { IsRun result entries.new }
{
    let last = entries.len() - 1;
    if run == 0 || !comes_before(&entries[last], &entries[run - 1]) {
        return run;
    }
    entries.swap(run, last);
    sort_front(entries, run + 1);
    run + 1
}
