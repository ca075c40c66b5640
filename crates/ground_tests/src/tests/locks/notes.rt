//! An object for the tests: notes, each put behind the others while there is room.
ghost use Rattle.std.specs.Prelude.{◌≡◌, ℕ, ◌<◌, ◌≤◌, ◌++◌, ◌∷◌, List, [], Some, None, length, nat_lt, vec_capacity, if◌then◌else◌, IfOk};

use std::alloc::{AllocError, Global};
use std::marker::Model;
use turn_lock::Object;

/// How many notes there is room for.
pub const ROOM: usize = 400;

/// Numbers in the order in which they came.
#[derive(Drop)]
pub struct Notes {
    items: Vec<u64>,
}

impl Model for Notes {
    ghost Value = { List ℕ };

    ghost view = { λ n. n.items.items };

    ghost invariant = { λ n. 400 ≤ vec_capacity n.items };
}

impl Notes {
    pub fn new(alloc: Global) -> Result<Notes, AllocError>
        ensures { IfOk result (λ n. n ≡ []) }
    {
        Ok(Notes {
            items: Vec::with_capacity(alloc, ROOM)?,
        })
    }

    pub fn len(&self) -> usize
        ensures { result ≡ length self.now }
    {
        self.items.len()
    }

    pub fn count_of(&self, value: u64) -> usize {
        self.items.iter().filter(|x| **x == value).count()
    }
}

impl Object for Notes {
    type Call = u64;

    type Reply = Option<u64>;

    // A note is added while there is room, and the reply is its place.
    ghost next = { λ s caller x. if nat_lt (length s) 400 then (s ++ x ∷ [], Some (length s)) else (s, None) };

    fn apply(&mut self, caller: u32, call: u64) -> Option<u64> {
        let _ = caller;
        let place = self.items.len();
        if place < ROOM {
            self.items.push_reserved(call);
            Some(place as u64)
        } else {
            None
        }
    }
}
