//! Numbers below a count that workers draw, each of them once.
//! `Claims` is the shared counter and `ClaimPass` the right of one worker to draw from it. What each pass drew
//! stands in its record, and `Claims::close` says how the records of all passes fit together.
#![tactic(auto)]

mod drawing;
mod pass;
mod rule;

pub use drawing::Claims;
pub use pass::ClaimPass;

#[cfg(test)]
mod tests;
