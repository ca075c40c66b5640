//! What the runs of several programs share: what a run read and wrote, what is known of named files, and the lines of a text.
//! Nothing here knows what a program is for, or by which status it ends.
#![tactic(auto)]

mod lines;

pub use lines::{push_line, push_number};

#[cfg(test)]
mod tests;
