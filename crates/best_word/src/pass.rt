//! The right of one worker to the best-so-far, seen as the trace of what it read and offered. It has no bytes.
ghost use Rattle.std.specs.Prelude.{◌≡◌, []};
ghost use Rattle.best_word.specs.Passes.{pass_of, IsPass};

use crate::rule::View;
use atomic_table::Seat;
use std::marker::Model;
use table_passes::TablePass;

/// The right of one worker to its `BestWord`. It is seen as its record: whose it is, what no offer is below, and the
/// trace of its reads and offers with their replies, which is legal at all times.
#[derive(Drop)]
pub struct WordPass {
    pub(crate) seat: Seat<u8, View>,
}

impl Model for WordPass {
    ghost use Rattle.std.specs.Prelude.{◌≡◌, []};
    ghost use Rattle.best_word.specs.Passes.{Pass, pass_of, IsPass};

    ghost Value = { Pass };

    ghost view = { λ p. pass_of p.seat.table_id p.seat.me.0 };

    ghost invariant = { λ p. (p.seat.me.1 ≡ []) × IsPass p.seat.me.0 };
}

impl WordPass {
    pub(crate) fn of(seat: Seat<u8, View>) -> WordPass
        requires { (seat.me.1 ≡ []) × IsPass seat.me.0 }
        ensures { result ≡ pass_of seat.table_id seat.me.0 }
    {
        WordPass { seat }
    }
}

impl TablePass<View> for WordPass {
    ghost use Rattle.best_word.specs.Passes.{IsPass, pass_of};

    ghost table = { λ p. p.best.table };

    ghost seen = { pass_of };

    ghost own = { IsPass };

    fn into_seat(self) -> Seat<u8, View> {
        let WordPass { seat } = self;
        seat
    }
}
