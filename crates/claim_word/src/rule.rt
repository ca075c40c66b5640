//! The rule of the counter, and its three kinds of step: an add, a split and a join.
//! No step tells a pass more than its own record.
use atomic_table::{Join, Play, Split, TableRule};
use std::collections::LinkedList;

/// How many numbers there are, and how many passes.
#[derive(Drop)]
pub struct Terms {
    pub count: u64,
    pub callers: u64,
}

/// The record of a seat: the terms, for how many passes it stands, what they drew, how many numbers all passes
/// together had drawn after its last step, and how many of its passes have ended. No value of it is ever made.
pub struct View {
    pub count: u64,
    pub callers: u64,
    pub parts: u64,
    pub draws: LinkedList<u64>,
    pub met: u64,
    pub ends: u64,
}

/// What is true of the counter and of all records between any two steps.
pub struct Counted;

impl TableRule<u8, View, Terms> for Counted {
    ghost use Rattle.claim_word.specs.Rule.{Kept, root};

    ghost holds = { Kept };

    ghost first = { root };
}

/// An add of one: a number for the pass, or its end.
pub struct Draw;

impl Play<u8, View> for Draw {
    ghost use Rattle.claim_word.specs.Rule.{Draws};

    ghost then = { Draws };
}

/// A split: one pass more out of a seat that has drawn nothing.
pub struct Divide;

impl Split<View> for Divide {
    ghost use Rattle.claim_word.specs.Rule.{less, one};

    ghost left = { less };

    ghost right = { one };
}

/// A join: a seat takes in the record of another.
pub struct Gather;

impl Join<View> for Gather {
    ghost use Rattle.claim_word.specs.Rule.{both, spent};

    ghost both = { both };

    ghost spent = { spent };
}
