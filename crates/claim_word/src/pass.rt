//! The right of one worker to draw, seen as the record of what it drew. It has no bytes.
ghost use Rattle.std.specs.Prelude.{◌≡◌, []};
ghost use Rattle.claim_word.specs.Passes.{pass_of};

use crate::rule::View;
use atomic_table::Seat;
use std::marker::Model;
use table_passes::TablePass;

/// The right of one worker to draw from its `Claims`. It is seen as its record: whose it is, its draws in their
/// order, how many numbers all passes together had drawn after its last draw, and whether it has ended.
#[derive(Drop)]
pub struct ClaimPass {
    pub(crate) seat: Seat<u8, View>,
}

impl Model for ClaimPass {
    ghost use Rattle.std.specs.Prelude.{◌≡◌, []};
    ghost use Rattle.claim_word.specs.Passes.{Pass, pass_code, pass_of};

    ghost Value = { Pass };

    ghost coded = { pass_code };

    ghost view = { λ p. pass_of p.seat.table_id p.seat.me.0 };

    ghost invariant = { λ p. (p.seat.me.1 ≡ []) × (p.seat.me.0.parts ≡ 1) };
}

impl ClaimPass {
    pub(crate) fn of(seat: Seat<u8, View>) -> ClaimPass
        requires { (seat.me.1 ≡ []) × (seat.me.0.parts ≡ 1) }
        ensures { result ≡ pass_of seat.table_id seat.me.0 }
    {
        ClaimPass { seat }
    }
}

impl TablePass<View> for ClaimPass {
    ghost use Rattle.claim_word.specs.Passes.{IsOnePass, pass_of};

    ghost table = { λ p. p.claims.table };

    ghost seen = { pass_of };

    ghost own = { IsOnePass };

    fn into_seat(self) -> Seat<u8, View> {
        let ClaimPass { seat } = self;
        seat
    }
}
