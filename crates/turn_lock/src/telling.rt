//! How one pass tells another what it has seen.
ghost use Rattle.std.specs.Prelude.{◌≡◌, []};
ghost use mathlib.Core.List.{IsPrefix};
ghost use Rattle.turn_lock.specs.declared.plays.Role.TheVariants.{Idle, Note};
ghost use Rattle.turn_lock.specs.Rule.{Learnt, told_of};
ghost use Rattle.turn_lock.specs.History.{IsLegal, calls_by};
ghost use Rattle.turn_lock.specs.Passes.{IsPassOf, SamePass, opening_of, seen_by, made_by};

use crate::lock::{TurnLock, TurnPass, TurnSeat};
use crate::object::Object;
use crate::plays::{Hear, Learn, Tell};

impl<O: Object> TurnLock<O> {
    /// From now on the second pass has seen all that either had seen. No call is made, and it waits for nobody.
    pub fn meet(&self, from: &mut TurnPass<O>, into: &mut TurnPass<O>)
        requires { IsPassOf self.now from.old × IsPassOf self.now into.old }
        ensures from { IsPassOf self.now from.new × SamePass from.old from.new }
        ensures into { IsPassOf self.now into.new × (into.new.number ≡ into.old.number) }
        ensures made { made_by into.new ≡ made_by into.old }
        ensures heard { IsPrefix (seen_by from.old) (seen_by into.new) }
        ensures kept { IsPrefix (seen_by into.old) (seen_by into.new) }
        ensures legal { IsLegal O.next (opening_of self.now) (seen_by into.new) }
        ensures own { calls_by into.old.number (seen_by into.new) ≡ made_by into.old }
    {
        let note = self.table.shared.split_seat::<Tell>(&mut from.seat);
        self.hear(&mut into.seat, note);
    }

    // What the note says is joined to the pass, and a load then takes it in with all else that happened.
    fn hear(&self, seat: &mut TurnSeat<O>, note: TurnSeat<O>)
        requires lock { seat.old.table_id ≡ self.now.table.shared.table_id }
        requires idle { seat.old.me.0.role ≡ Idle }
        requires note_lock { note.table_id ≡ self.now.table.shared.table_id }
        requires note { (note.me.0.role ≡ Note) × (note.me.1 ≡ []) }
        ensures lock { seat.new.table_id ≡ seat.old.table_id }
        ensures learnt { Learnt O.next (told_of seat.old.me.0 note.me.0, seat.old.me.1) seat.new.me }
    {
        self.table.shared.join_seat::<Hear>(seat, note);
        self.table.shared.load::<Learn>(seat, 0);
    }
}
