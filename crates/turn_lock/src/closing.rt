//! How a lock ends: all passes are handed in, and the object comes back with its whole history.
ghost use Rattle.std.specs.Prelude.{◌≡◌, ◌++◌, All, map};
ghost use Rattle.turn_lock.specs.Rule.{MayGather, gathered};
ghost use Rattle.turn_lock.specs.Passes.{known_by, IsPassOf, AreAll, HasOneHistory};

use crate::lock::{TurnLock, TurnPass, TurnSeat};
use crate::object::{Held, Object};
use crate::plays::HandIn;

impl<O: Object> TurnLock<O> {
    /// Ends the lock, and gives the object back. It takes all its passes, waits for nobody and takes no memory.
    pub fn close(self, mut passes: Vec<TurnPass<O>>) -> O
        requires passes { All (λ p. IsPassOf self p) passes.items }
        requires all { AreAll self passes.items }
        ensures { HasOneHistory O.next self passes.items result }
    {
        let Some(last) = passes.pop() else {
            unreachable!()
        };
        let mut closing = last.into_seat();
        self.take_in(&mut closing, passes);
        let TurnLock { table } = self;
        let mut closed = table.close_with(closing);
        let Held { object, last: _ } = closed.take(0);
        closed.free();
        object
    }

    // The passes are handed in to the seat, the last one first.
    fn take_in(&self, closing: &mut TurnSeat<O>, mut passes: Vec<TurnPass<O>>)
        requires lock { closing.old.table_id ≡ self.now.table.shared.table_id }
        requires gathers { MayGather closing.old.me.0.role }
        requires passes { All (λ p. IsPassOf self.now p) passes.items }
        ensures lock { closing.new.table_id ≡ closing.old.table_id }
        ensures gathers { MayGather closing.new.me.0.role }
        ensures all { gathered closing.new.me.0 ≡ map known_by passes.items ++ gathered closing.old.me.0 }
    {
        while let Some(pass) = passes.pop() {
            self.table
                .shared
                .join_seat::<HandIn>(closing, pass.into_seat());
        }
        passes.destroy_empty();
    }
}
