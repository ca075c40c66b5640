//! Counters that stop at their last value.
ghost use Rattle.std.specs.Prelude.{◌≡◌};
ghost use Rattle.outside.specs.Count.{next_count};

/// One more, up to the last value of a counter.
pub fn next(count: u64) -> u64
    ensures { result ≡ next_count count }
{
    count.saturating_add(1)
}
