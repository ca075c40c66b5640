//! Room between the workers of a row. Its one rule: nothing is said of it.
use std::marker::Model;

/// Room that is never used, of two cache lines: what one worker writes at each turn is then on no line that its neighbour reads.
#[derive(Drop)]
pub struct Apart {
    lines: [u64; 16],
}

impl Model for Apart {
    ghost Value = { Unit {0} };

    ghost view = { λ a. tt };

    ghost invariant = { λ a. Unit {0} };
}

impl Apart {
    /// The room.
    pub fn new() -> Apart {
        Apart { lines: [0; 16] }
    }
}
