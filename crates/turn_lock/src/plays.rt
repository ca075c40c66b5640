//! The rule of the lock's table, what a seat knows, and what each step tells. All of it is for the proofs alone.
ghost use Rattle.std.specs.Prelude.{◌<◌};

use crate::object::{Entry, Held, Object};
use atomic_table::{Join, Play, Split, TableRule};
use std::collections::LinkedList;
use std::snapshot::Snapshot;

/// What a seat is for.
pub enum Role {
    /// It hands out the numbers.
    Dealer,
    /// It is a pass that does not have the turn.
    Idle,
    /// It is a pass that has the turn.
    Turn,
    /// It carries what one pass had seen to another.
    Note,
    /// It takes in the passes at the end.
    Closer,
}

/// What a pass knew when it was handed in.
pub struct Knowing<C, R> {
    /// Its number.
    pub number: u32,
    /// The history that it had seen.
    pub seen: LinkedList<Entry<C, R>>,
    /// Its own calls.
    pub mine: LinkedList<Entry<C, R>>,
}

/// What a seat knows. No value of it is made.
pub struct View<O, C, R> {
    /// What the seat is for.
    pub role: Role,
    /// The object that the lock was begun with.
    pub opening: Option<O>,
    /// The caller's number, or the next number to deal.
    pub number: u32,
    /// The history that it has seen.
    pub seen: LinkedList<Entry<C, R>>,
    /// Its own calls.
    pub mine: LinkedList<Entry<C, R>>,
    /// The history that another pass told it last.
    pub told: LinkedList<Entry<C, R>>,
    /// The passes that were handed in to it.
    pub handed: LinkedList<Knowing<C, R>>,
}

/// What the table is given once.
pub struct Opening<O> {
    /// The object that the lock was begun with.
    pub object: Snapshot<O>,
    /// The number of callers.
    pub callers: u32,
    ghost some_caller: { 0 < callers },
}

impl<O> Drop for Opening<O> {
    fn drop(self) {
        let Self {
            object: _,
            callers: _,
        } = self;
    }
}

/// The rule of the table: one history, and each seat knows a beginning of it.
pub struct OneHistory;

impl<O: Object> TableRule<Held<O, O::Call, O::Reply>, View<O, O::Call, O::Reply>, Opening<O>>
    for OneHistory {
    ghost use Rattle.turn_lock.specs.Rule.{Kept, dealer};

    ghost holds = { λ k. Kept O.next k.object.value k.callers };

    ghost first = { λ k. dealer k.object.value 0 };
}

/// A pass tries to take the turn, and the object out of its slot.
pub struct Take;

impl<O: Object> Play<Held<O, O::Call, O::Reply>, View<O, O::Call, O::Reply>> for Take {
    ghost use Rattle.turn_lock.specs.Rule.{took};

    ghost then = { took O.next };
}

/// A pass gives the object and the turn back, and its call enters the history.
pub struct Release;

impl<O: Object> Play<Held<O, O::Call, O::Reply>, View<O, O::Call, O::Reply>> for Release {
    ghost use Rattle.turn_lock.specs.Rule.{released};

    ghost then = { released O.next };
}

/// A pass takes in what it was told, and all else that happened.
pub struct Learn;

impl<O: Object> Play<Held<O, O::Call, O::Reply>, View<O, O::Call, O::Reply>> for Learn {
    ghost use Rattle.turn_lock.specs.Rule.{learnt};

    ghost then = { learnt O.next };
}

/// A number is dealt.
pub struct Deal;

impl<O, C, R> Split<View<O, C, R>> for Deal {
    ghost use Rattle.turn_lock.specs.Rule.{dealt, newcomer};

    ghost left = { λ v. dealt v };

    ghost right = { λ v. newcomer v };
}

/// A pass writes down what it has seen, for another pass.
pub struct Tell;

impl<O, C, R> Split<View<O, C, R>> for Tell {
    ghost use Rattle.turn_lock.specs.Rule.{note_of};

    ghost left = { λ v. v };

    ghost right = { λ v. note_of v };
}

/// A pass is told what another had seen.
pub struct Hear;

impl<O, C, R> Join<View<O, C, R>> for Hear {
    ghost use Rattle.turn_lock.specs.Rule.{told_of, closer};
    ghost use Rattle.std.specs.Prelude.{[]};

    ghost both = { λ v w. told_of v w };

    ghost spent = { closer [] };
}

/// A pass is handed in at the end.
pub struct HandIn;

impl<O, C, R> Join<View<O, C, R>> for HandIn {
    ghost use Rattle.turn_lock.specs.Rule.{handed_in, closer};
    ghost use Rattle.std.specs.Prelude.{[]};

    ghost both = { λ v w. handed_in v w };

    ghost spent = { closer [] };
}
