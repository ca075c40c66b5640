//! What commands read and test before their work, one function a step: a step that refuses gives the status.

pub mod certificate_file;
pub mod file;
pub mod index_file;
pub mod lengths;
pub mod pair;
