//! What a trial found, in three numbers: how many answers, and the sums of their distances and of their numbers.

ghost use Rattle.std.specs.Prelude.{◌≡◌, ◌+◌, ◌*◌, ◌^◌, ◌≤◌, ◌++◌, length, IfOk, OnOk};
ghost use Rattle.list_totals.specs.Totals.{total};
ghost use Rattle.series_core.specs.declared.best.TheConstants.{MAX_BEST};
ghost use Rattle.search_run.specs.Trials.{counted, summary_lines};

use itoa::Buffer;
use outside::NoMemory;
use series_core::Pair;
use std::alloc::Global;

/// How many answers there are, and the sums of their distances and of their numbers.
#[derive(Clone, Copy, Debug, PartialEq, Eq)]
pub struct Summary {
    /// The number of answers.
    pub answers: u64,
    /// The sum of their distances.
    pub distances: u128,
    /// The sum of their numbers.
    pub numbers: u128,
}

impl Summary {
    /// The answers to no query.
    pub const NONE: Summary = Summary {
        answers: 0,
        distances: 0,
        numbers: 0,
    };

    /// Adds the answers to one query.
    pub fn add(&mut self, pairs: &[Pair])
        requires short { length pairs.now ≤ MAX_BEST }
        requires answers { self.old.answers ≤ 2 ^ 20 }
        requires distances { self.old.distances ≤ 2 ^ 84 }
        requires numbers { self.old.numbers ≤ 2 ^ 52 }
        ensures answers { self.new.answers ≡ self.old.answers + length pairs.now }
        ensures distances { self.new.distances ≡ self.old.distances + total (λ p. p.distance) pairs.now }
        ensures numbers { self.new.numbers ≡ self.old.numbers + total (λ p. p.number) pairs.now }
        ensures few { self.new.answers ≤ self.old.answers + MAX_BEST }
        ensures near { self.new.distances ≤ self.old.distances + MAX_BEST * 2 ^ 64 }
        ensures low { self.new.numbers ≤ self.old.numbers + MAX_BEST * 2 ^ 32 }
    {
        self.answers += pairs.len() as u64;
        for pair in pairs {
            self.distances += u128::from(pair.distance);
            self.numbers += u128::from(pair.number);
        }
    }
}

/// The four lines.
pub fn summary_text(
    alloc: Global,
    count: u32,
    length: u32,
    queries: u32,
    k: u32,
    summary: &Summary,
) -> Result<Vec<u8>, NoMemory>
    ensures { IfOk result (λ text. text.items ≡ summary_lines count length queries k summary.now) }
{
    let mut text = Vec::new(alloc);
    push_counted(&mut text, "series ", u128::from(count))?;
    push_counted(&mut text, " length ", u128::from(length))?;
    push_counted(&mut text, " queries ", u128::from(queries))?;
    push_counted(&mut text, " k ", u128::from(k))?;
    push_counted(&mut text, "\nanswers ", u128::from(summary.answers))?;
    push_counted(&mut text, "\ntotal ", summary.distances)?;
    push_counted(&mut text, "\nnumbers ", summary.numbers)?;
    text.push(b'\n')?;
    Ok(text)
}

// Appends text and a number behind it.
fn push_counted(text: &mut Vec<u8>, word: &str, n: u128) -> Result<(), NoMemory>
    ensures { OnOk result (text.new.items ≡ text.old.items ++ counted word.now n) }
{
    let mut buffer = Buffer::new();
    text.extend_from_slice(word.as_bytes())?;
    text.extend_from_slice(buffer.format(n).as_bytes())?;
    Ok(())
}
