//! Blocks between tests of a limit, what is left behind the last one, and the test itself.

ghost use Rattle.std.specs.Prelude.{◌≡◌, ◌≤◌, ◌<◌, length, FitsSigned, MatchOption};
ghost use Rattle.std.specs.List.{All};
ghost use mir.Syntax.{w16};
ghost use Rattle.series_core.specs.Distance.{squared_distance};
ghost use Rattle.simd_distance.specs.Blocks.{AreBlocks};

use crate::far::far_distance;
use crate::lanes::LANES;
use crate::near::near_distance;
use crate::plain::distance;

/// The number of values between two tests of the limit.
pub(crate) const BLOCK: usize = 64;

/// A distance where it is at most the limit.
pub(crate) fn within(found: u64, limit: u64) -> Option<u64>
    ensures { MatchOption result (limit < found) (λ d. (d ≡ found) × (d ≤ limit)) }
{
    if found <= limit { Some(found) } else { None }
}

/// The squared Euclidean distance of what is left behind the last block: whole sixteens in lanes, and the rest by itself.
pub(crate) fn rest_distance(x: &[i16], q: &[i16]) -> u64
    requires same_length { length x.now ≡ length q.now }
    requires short { length x.now ≤ 64 }
    requires x_fits { All (FitsSigned w16) x.now }
    requires q_fits { All (FitsSigned w16) q.now }
    ensures { result ≡ squared_distance x.now q.now }
{
    let sixteens = x.len() / LANES * LANES;
    let most = block_distance(&x[..sixteens], &q[..sixteens]);
    most + distance(&x[sixteens..], &q[sixteens..])
}

/// The squared Euclidean distance of two blocks of whole sixteens.
fn block_distance(x: &[i16], q: &[i16]) -> u64
    requires { AreBlocks x.now q.now }
    ensures { result ≡ squared_distance x.now q.now }
{
    match near_distance(x, q) {
        Some(found) => found,
        None => far_distance(x, q),
    }
}
