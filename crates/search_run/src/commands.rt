//! What each command does with its input, one module a command, and one for those that read one file and write one text of it.
//! Each ends with the status that says why it could not do it.

pub mod nearest;
pub mod one_file;
pub mod range;
pub mod search;
pub mod trial;
pub mod verify;
pub mod windows;
