//! Limits: distances, and the one value that stands for no limit.
//! A distance is a `u64`; no distance and no lower bound reaches `NONE`.

ghost use Rattle.std.specs.Prelude.{◌≡◌};

/// There is no limit: this value is above every distance and every lower bound.
pub const NONE: u64 = u64::MAX;

/// How far a bound may lie under the limit `v`: as far as `v` itself, and without end where `v` is `NONE`.
pub fn far(v: u64) -> u64
    ensures { result ≡ v }
{
    v
}
