//! A limit as bounds by codes are held against it: its length is made once, since a limit stays the same over many rows.
ghost use Rattle.std.specs.Prelude.{◌≡◌, ◌<◌, ◌≤◌, ◌^◌, leb};
ghost use Rattle.row_codes.specs.Bound.{bound_at};

use crate::roots::root_of;
use std::marker::Model;

/// Limits from here on are above every bound.
const MOST: u64 = 2251799813685248;

/// A limit of a squared distance, seen as that limit, with twice the length that it allows.
#[derive(Drop)]
pub struct CodeLimit {
    limit: u64,
    length: u64,
}

impl Model for CodeLimit {
    ghost use Rattle.std.specs.Prelude.{◌≡◌, ℕ, ◌+◌, ◌*◌, min};
    ghost use Rattle.row_codes.specs.Roots.{root};

    ghost Value = { ℕ };

    ghost view = { λ l. l.limit };

    ghost invariant = { λ l. l.length ≡ root (4 * min l.limit 2251799813685248 + 3) };
}

impl CodeLimit {
    /// A limit, any number: `NONE` allows every row.
    pub fn new(limit: u64) -> CodeLimit
        ensures { result ≡ limit }
    {
        let length = root_of(4 * limit.min(MOST) + 3);
        CodeLimit { limit, length }
    }

    /// The limit.
    pub fn limit(&self) -> u64
        ensures { result ≡ self.now }
    {
        self.limit
    }

    // Whether the bound up to the end of a block is at most the limit, of the square of how far the query lies from what codes stand for, and
    // of twice how long what these forget is.
    #[inline(always)]
    pub(crate) fn allows(&self, squared: u64, rest: u32) -> bool
        requires squared { squared < 2 ^ 51 }
        requires rest { rest ≤ 33554432 }
        ensures { result ≡ leb (bound_at squared rest) self.now }
    {
        let above = self.length + u64::from(rest) + 1;
        4 * squared < above * above
    }
}
