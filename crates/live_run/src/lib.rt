//! A whole run of a script over a live collection, between the words and the printed lines: a script appends batches and asks
//! for the nearest, and each group's append and asks run side by side.
#![tactic(auto)]

mod answering;
mod dialogue;
mod file;
mod group;
mod groups;
mod run;
mod script_file;
mod status;
mod tell;
mod text;

pub use run::live_run;
pub use status::LiveStatus;
