//! The laws. Each is a function that does nothing: its clauses are the law.
mod answers;
mod records;
mod turns;

pub use answers::{answer_law, offer_law, pass_over_law, rank_law, scan_law};
pub use records::{
    closing_law, draining_law, empty_record_law, puts_law, reply_law, straight_closing_law,
    workers_law,
};
pub use turns::{
    ending_law, enough_law, fate_law, opening_law, room_law, schedule_law, straight_law, turn_law,
};
