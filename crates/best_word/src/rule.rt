//! The rule of the falling number, and its kinds of step: a load, a min, a split and a join.
//! A load for no pass gives the first record its floor, before there is any pass.
use crate::floor::Told;
use atomic_table::{Join, Play, Split, TableRule};
use std::collections::LinkedList;
use std::marker::PhantomData;

/// What the number starts at, and how many passes there are.
#[derive(Drop)]
pub struct Terms {
    pub start: u64,
    pub callers: u64,
}

/// A read with its reply, or an offer with its value and its reply. No value of it is ever made.
pub enum Event {
    Read(u64),
    Offer(u64, u64),
}

/// The record of a seat: the terms, the floor, for how many passes it stands, and what they read and offered.
/// No value of it is ever made.
pub struct View {
    pub start: u64,
    pub floor: u64,
    pub callers: u64,
    pub parts: u64,
    pub trace: LinkedList<Event>,
}

/// What is true of the number and of all records between any two steps.
pub struct Falling;

impl TableRule<u8, View, Terms> for Falling {
    ghost use Rattle.best_word.specs.Rule.{Kept, root};

    ghost holds = { Kept };

    ghost first = { root };
}

/// A load before there is any pass: the first record is given its floor.
pub struct Opening<K> {
    pub told: PhantomData<K>,
}

impl<K: Told> Play<u8, View> for Opening<K> {
    ghost use Rattle.best_word.specs.Rule.{Opens};

    ghost then = { Opens K.told };
}

/// A load for a pass.
pub struct Load;

impl Play<u8, View> for Load {
    ghost use Rattle.best_word.specs.Rule.{Reads};

    ghost then = { Reads };
}

/// A min for a pass.
pub struct Min;

impl Play<u8, View> for Min {
    ghost use Rattle.best_word.specs.Rule.{Offers};

    ghost then = { Offers };
}

/// A split: one pass more out of a seat that has read and offered nothing.
pub struct Divide;

impl Split<View> for Divide {
    ghost use Rattle.best_word.specs.Rule.{less, one};

    ghost left = { less };

    ghost right = { one };
}

/// A join: a seat takes in the record of a pass.
pub struct Gather;

impl Join<View> for Gather {
    ghost use Rattle.best_word.specs.Rule.{both, spent};

    ghost both = { both };

    ghost spent = { spent };
}
