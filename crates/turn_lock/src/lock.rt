//! The lock and its passes, and why there may be none.
ghost use Rattle.std.specs.Prelude.{◌≡◌, []};

use crate::object::{Held, Object};
use crate::plays::{OneHistory, Opening, View};
use atomic_table::{Seat, Table, TableRule};
use std::alloc::Global;
use std::fmt::Debug;
use thiserror::Error;

/// A lock round an object. A caller with a pass has calls applied to it, one at a time.
pub type TurnLock<O> = LockOf<
    Held<O, <O as Object>::Call, <O as Object>::Reply>,
    View<O, <O as Object>::Call, <O as Object>::Reply>,
    Opening<O>,
    OneHistory,
>;

/// The right to call as one caller, whose number it has.
pub type TurnPass<O> = PassOf<
    Held<O, <O as Object>::Call, <O as Object>::Reply>,
    View<O, <O as Object>::Call, <O as Object>::Reply>,
>;

/// A seat at the lock's table.
pub(crate) type TurnSeat<O> = Seat<
    Held<O, <O as Object>::Call, <O as Object>::Reply>,
    View<O, <O as Object>::Call, <O as Object>::Reply>,
>;

/// The lock over plain types: it names no part of them, so that it crosses threads wherever they may.
#[derive(Drop)]
pub struct LockOf<S, V, K, P: TableRule<S, V, K>> {
    pub(crate) table: Table<S, V, K, P, Global>,
    ghost sized: { (table.shared.table_id.words ≡ 1) × (table.shared.table_id.slots ≡ 1) },
}

/// The pass over plain types, as `LockOf`.
pub struct PassOf<S, V> {
    pub(crate) seat: Seat<S, V>,
    pub(crate) number: u32,
    ghost rests: { seat.me.1 ≡ [] },
}

/// Why no lock was begun. The object comes back.
#[derive(Debug, Drop, Error)]
#[error_bound(O: Debug)]
pub enum LockError<O> {
    /// There was no memory for the lock.
    #[error("out of memory")]
    NoMemory(O),
}

impl<S, V> PassOf<S, V> {
    /// The caller's number.
    pub fn number(&self) -> u32
        ensures { result ≡ self.now.number }
    {
        self.number
    }

    pub(crate) fn into_seat(self) -> Seat<S, V>
        ensures { result ≡ self.seat }
    {
        let Self { seat, number: _ } = self;
        seat
    }
}

impl<S, V> Drop for PassOf<S, V> {
    fn drop(self) {
        let Self { seat: _, number: _ } = self;
    }
}
