//! Searches by workers in one thread: as worked by hand, turn by turn and whole, and random small ones against a plain sort.
pub(crate) mod drawn;
mod hand;
mod play;
mod turn_by_turn;
mod worked;
