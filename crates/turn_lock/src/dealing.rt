//! How a lock begins: its table is laid, and one pass is dealt for each number.
ghost use Rattle.std.specs.Prelude.{◌≡◌, ◌<◌, ◌≤◌, ◌+◌, [], IfOk, IfErr, length, slice_index_or, vec_capacity};
ghost use Rattle.turn_lock.specs.declared.lock.LockError.TheVariants.{NoMemory};
ghost use Rattle.turn_lock.specs.Rule.{dealer};
ghost use Rattle.turn_lock.specs.Passes.{IsNewPass, AreNewPasses, opening_of, callers_of};

use crate::lock::{LockError, TurnLock, TurnPass, TurnSeat};
use crate::object::{Held, Object};
use crate::plays::{Deal, Opening};
use atomic_table::{Refused, Table};
use search_limits::MOST_WORKERS;
use std::alloc::Global;
use std::snapshot::Snapshot;

impl<O: Object> TurnLock<O> {
    /// A lock on the object, and one pass a caller, numbered from 0 in their order.
    pub fn begin(
        alloc: Global,
        object: O,
        callers: u32,
    ) -> Result<(TurnLock<O>, Vec<TurnPass<O>>), LockError<O>>
        requires { (0 < callers) × (callers ≤ MOST_WORKERS) }
        ensures opening { IfOk result (λ r. opening_of r.0 ≡ object) }
        ensures callers { IfOk result (λ r. callers_of r.0 ≡ callers) }
        ensures count { IfOk result (λ r. length r.1.items ≡ callers) }
        ensures passes { IfOk result (λ r. AreNewPasses r.0 r.1.items) }
        ensures no_memory { IfErr result (λ e. e ≡ NoMemory object) }
    {
        let Ok(mut passes) = Vec::with_capacity(alloc, callers as usize) else {
            return Err(LockError::NoMemory(object));
        };
        let Ok(mut slots) = Vec::with_capacity(alloc, 1) else {
            return Err(LockError::NoMemory(object));
        };
        let about = Opening {
            object: Snapshot::of(&object),
            callers,
        };
        slots.push_reserved(Held { object, last: None });
        let (table, dealer) = match Table::new(alloc, &[0], slots, &about) {
            Ok(made) => made,
            Err(Refused { slots }) => return Err(LockError::NoMemory(object_of::<O>(slots))),
        };
        let lock = TurnLock { table };
        lock.deal_all(dealer, callers, &mut passes);
        Ok((lock, passes))
    }

    fn deal_all(&self, mut dealing: TurnSeat<O>, callers: u32, passes: &mut Vec<TurnPass<O>>)
        requires lock { dealing.table_id ≡ self.now.table.shared.table_id }
        requires start { dealing.me ≡ (dealer (opening_of self.now) 0, []) }
        requires callers { callers ≡ callers_of self.now }
        requires room { (passes.old.items ≡ []) × (callers ≤ vec_capacity passes.old) }
        ensures count { length passes.new.items ≡ callers }
        ensures passes { AreNewPasses self.now passes.new.items }
    {
        for number in 0..callers {
            let pass = self.deal(&mut dealing, number);
            passes.push_reserved(pass);
        }
    }

    fn deal(&self, dealing: &mut TurnSeat<O>, number: u32) -> TurnPass<O>
        requires lock { dealing.old.table_id ≡ self.now.table.shared.table_id }
        requires next { dealing.old.me ≡ (dealer (opening_of self.now) number, []) }
        requires below { number < callers_of self.now }
        ensures lock { dealing.new.table_id ≡ dealing.old.table_id }
        ensures next { dealing.new.me ≡ (dealer (opening_of self.now) (number + 1), []) }
        ensures pass { IsNewPass self.now number result }
    {
        let seat = self.table.shared.split_seat::<Deal>(dealing);
        TurnPass { seat, number }
    }
}

// The object that lies in the one slot.
fn object_of<O: Object>(mut slots: Vec<Held<O, O::Call, O::Reply>>) -> O
    requires { length slots.items ≡ 1 }
    ensures { (d : _) → result ≡ (slice_index_or slots.items 0 d).object }
{
    let Some(Held { object, last: _ }) = slots.pop() else {
        unreachable!()
    };
    slots.destroy_empty();
    object
}
