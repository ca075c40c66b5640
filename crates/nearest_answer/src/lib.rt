//! The search for the answer alone: the k nearest rows, by one worker or by a team, with nothing of the way to them.
//! It takes no turns. A first limit is found, and then the leaves that are near enough are scanned, or all members or rows where the
//! bounds of leaves tell too little.
#![tactic(auto)]

mod all_rows;
mod answer;
mod begun;
mod by_leaves;
mod crew;
mod first_leaf;
mod limits;
mod listed;
mod near_leaves;
mod sharing;
mod stretches;
mod sweep;
mod team;
mod team_answer;
mod telling;
mod tuning;
mod way;

pub use answer::one_worker_answer;
pub use limits::first_limit;
pub use search_task::{Search, Task};
pub use team_answer::{answer_by_stretches, answer_by_team};
pub use telling::ApartBy;
