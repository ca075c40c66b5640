//! The tests of leaf lines: each bound is that of its word, and strictly above the last distance.

ghost use Rattle.std.specs.Prelude.{◌≡◌, ◌^◌, ◌≤◌, length};
ghost use Rattle.std.specs.List.{All};
ghost use Rattle.certificate.specs.Refusals.{refusal_of};
ghost use Rattle.certificate.specs.Verdict.{bound_refusal, bounds_refusal, low_refusal, lows_refusal};

use crate::block::{LeafLine, Said};
use crate::error::Reject;
use lower_bound::QueryView;

/// Tests that each bound of block `b` is that of its word; the first that is not is refused, with the real one.
pub fn check_bounds(b: u32, view: &QueryView, leaves: &[LeafLine]) -> Result<(), Reject>
    requires few { length leaves.now ≤ 2 ^ 32 }
    requires segments { All (λ leaf. length leaf.word ≡ view.now.layout.cuts.segments) leaves.now }
    ensures { refusal_of result ≡ bounds_refusal b view.now leaves.now }
{
    for (l, leaf) in leaves.iter().enumerate() {
        check_bound(b, l as u32, leaf.said, view.bound_word(&leaf.word))?;
    }
    Ok(())
}

// Tests that the bound of leaf `l`, where one is said, is the real one.
fn check_bound(b: u32, l: u32, said: Said, real: u64) -> Result<(), Reject>
    ensures { refusal_of result ≡ bound_refusal b l said real }
{
    match said {
        Said::Bound(bound) if bound != real => Err(Reject::Bound(b, l, bound, real)),
        _ => Ok(()),
    }
}

/// Tests that each bound of block `b` is strictly above the last distance.
pub fn check_lows(b: u32, last: u64, leaves: &[LeafLine]) -> Result<(), Reject>
    requires { length leaves.now ≤ 2 ^ 32 }
    ensures { refusal_of result ≡ lows_refusal b last leaves.now }
{
    for (l, leaf) in leaves.iter().enumerate() {
        check_low(b, l as u32, leaf.said, last)?;
    }
    Ok(())
}

// Tests that the bound of leaf `l`, where one is said, is strictly above the last distance.
fn check_low(b: u32, l: u32, said: Said, last: u64) -> Result<(), Reject>
    ensures { refusal_of result ≡ low_refusal b l said last }
{
    match said {
        Said::Bound(bound) if bound <= last => Err(Reject::Low(b, l, bound, last)),
        _ => Ok(()),
    }
}
