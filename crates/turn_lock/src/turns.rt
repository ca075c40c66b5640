//! One call: a pass takes the turn with the object, applies the call, and gives both back.
ghost use Rattle.std.specs.Prelude.{◌≡◌, [], ◌∷◌, ◌++◌, Some};
ghost use Rattle.turn_lock.specs.declared.plays.Role.TheVariants.{Idle};
ghost use Rattle.turn_lock.specs.History.{IsLegal, EndsWith, calls_by, entry};
ghost use Rattle.turn_lock.specs.Rule.{Took, Applied, Called};
ghost use Rattle.turn_lock.specs.Passes.{IsPassOf, opening_of, seen_by, made_by};

use crate::lock::{TurnLock, TurnPass, TurnSeat};
use crate::object::{Held, Last, Object};
use crate::plays::{Release, Take};
use std::snapshot::Snapshot;
use std::sync::Wait;
use std::thread;

// How often a pass tries for the turn before it lets other threads have the processor.
const QUICK_TRIES: u32 = 16;

impl<O: Object> TurnLock<O> {
    /// The object's reply to one call by the pass, whose number is the caller. It waits for the turn.
    /// Apart from the object's own `apply` it takes no memory.
    pub fn call<R: Wait>(&self, rt: &R, pass: &mut TurnPass<O>, call: O::Call) -> O::Reply
        requires { IsPassOf self.now pass.old }
        ensures pass { IsPassOf self.now pass.new }
        ensures number { pass.new.number ≡ pass.old.number }
        ensures made { made_by pass.new ≡ made_by pass.old ++ entry pass.old.number call result ∷ [] }
        ensures seen { EndsWith (seen_by pass.old) (entry pass.old.number call result) (seen_by pass.new) }
        ensures legal { IsLegal O.next (opening_of self.now) (seen_by pass.new) }
        ensures own { calls_by pass.old.number (seen_by pass.new) ≡ made_by pass.new }
    {
        self.call_at(rt, &mut pass.seat, pass.number, call)
    }

    fn call_at<R: Wait>(
        &self,
        rt: &R,
        seat: &mut TurnSeat<O>,
        number: u32,
        call: O::Call,
    ) -> O::Reply
        requires lock { seat.old.table_id ≡ self.now.table.shared.table_id }
        requires idle { seat.old.me.0.role ≡ Idle }
        requires number { seat.old.me.0.number ≡ number }
        requires rests { seat.old.me.1 ≡ [] }
        ensures lock { seat.new.table_id ≡ seat.old.table_id }
        ensures called { Called O.next seat.old.me seat.new.me (entry seat.old.me.0.number call result) }
    {
        self.take(rt, seat, number);
        let reply = self.apply(seat, number, call);
        self.table.shared.store::<Release>(seat, 0, 0);
        reply
    }

    // The turn is asked for a few times at once, and then between pauses: a pass that waits on a
    // loaded machine must not take the processor from the pass that has the turn.
    fn take<R: Wait>(&self, rt: &R, seat: &mut TurnSeat<O>, number: u32)
        requires lock { seat.old.table_id ≡ self.now.table.shared.table_id }
        requires idle { seat.old.me.0.role ≡ Idle }
        requires number { seat.old.me.0.number ≡ number }
        ensures same { (seat.new.table_id ≡ seat.old.table_id) × (seat.new.id ≡ seat.old.id) }
        ensures took { Took O.next seat.old.me seat.new.me }
    {
        let holder = number as u64 + 1;
        let mut tries = 0;
        for _ in rt.forever() {
            let table = &self.table.shared;
            let found = table.compare_exchange::<Take>(seat, 0, 0, holder);
            if found == 0 {
                return;
            }
            if tries < QUICK_TRIES {
                tries += 1;
            } else {
                thread::yield_now();
            }
        }
        unreachable!()
    }

    fn apply(&self, seat: &mut TurnSeat<O>, number: u32, call: O::Call) -> O::Reply
        requires lock { seat.old.table_id ≡ self.now.table.shared.table_id }
        requires held { (h : _) × (seat.old.me.1 ≡ (0, h) ∷ []) }
        ensures same { (seat.new.table_id ≡ seat.old.table_id) × (seat.new.id ≡ seat.old.id) }
        ensures view { seat.new.me.0 ≡ seat.old.me.0 }
        ensures applied { Applied O.next seat.old.me.1 seat.new.me.1 number call result }
    {
        let held = seat.slot_mut(&self.table.shared, 0);
        apply_once::<O>(held, number, call)
    }
}

fn apply_once<O: Object>(
    held: &mut Held<O, O::Call, O::Reply>,
    caller: u32,
    call: O::Call,
) -> O::Reply
    ensures next { (held.new.object, result) ≡ O.next held.old.object caller call }
    ensures last { (l : _) × (held.new.last ≡ Some l) × (l.call.value ≡ call) × (l.reply.value ≡ result) }
{
    let named = Snapshot::of(&call);
    let reply = held.object.apply(caller, call);
    held.last = Some(Last {
        call: named,
        reply: Snapshot::of(&reply),
    });
    reply
}
