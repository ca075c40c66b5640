//! Merging two ascending lists of pairs: the smaller of their first pairs comes next, so that no pair is moved twice.
ghost use Rattle.std.specs.Prelude.{◌≡◌, ◌++◌, IfOk};
ghost use Rattle.series_core.specs.Pairs.{ascending, smallest};
ghost use Rattle.query_core.specs.Merging.{AreOrdered, IsNext, is_left_next};

use outside::NoMemory;
use series_core::Pair;
use std::alloc::Global;

/// The k smallest pairs of two ascending lists.
pub(crate) fn merge(
    alloc: Global,
    k: usize,
    left: &[Pair],
    right: &[Pair],
) -> Result<Vec<Pair>, NoMemory>
    requires ordered { AreOrdered left.now right.now }
    ensures { IfOk result (λ ps. ps.items ≡ smallest k (left.now ++ right.now)) }
{
    let mut merged = Vec::with_capacity(alloc, k)?;
    let mut rest = Rest { left, right };
    for _ in 0..k {
        let Some(pair) = rest.next() else {
            break;
        };
        merged.push_reserved(pair);
    }
    Ok(merged)
}

// What was not yet taken of two ascending lists.
#[derive(Drop)]
struct Rest<'a> {
    left: &'a [Pair],
    right: &'a [Pair],
}

impl Rest<'_> {
    // Takes the smallest pair, where there is one.
    fn next(&mut self) -> Option<Pair>
        requires ordered { AreOrdered self.old.left.now self.old.right.now }
        ensures ordered { AreOrdered self.new.left.now self.new.right.now }
        ensures next { IsNext (ascending (self.old.left.now ++ self.old.right.now)) result
            (ascending (self.new.left.now ++ self.new.right.now)) }
    {
        if self.is_left_next() {
            let (pair, left) = self.left.split_first()?;
            self.left = left;
            Some(*pair)
        } else {
            let (pair, right) = self.right.split_first()?;
            self.right = right;
            Some(*pair)
        }
    }

    // Whether the first pair of the first list comes next: it is the smaller of the first pairs, or the second list has none.
    fn is_left_next(&self) -> bool
        ensures { result ≡ is_left_next self.now.left.now self.now.right.now }
    {
        match (self.left.first(), self.right.first()) {
            (Some(left), Some(right)) => left.is_before(right),
            (left, _) => left.is_some(),
        }
    }
}
