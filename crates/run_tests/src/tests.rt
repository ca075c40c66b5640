//! The tables, a module for each subject, and in `fixture` what they share.

mod batches;
mod certifying;
mod commands;
mod converting;
mod drawn_files;
mod failing;
mod fixture;
mod indexes;
mod parsing;
mod refusing;
mod runs;
mod sharing;
mod trials;
mod verifying;
mod windows;
mod words;
mod workers;
