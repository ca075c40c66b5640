//! What commands write: texts piece by piece, and the line that tells how a run ended. Nothing here searches.

pub mod converted;
pub mod discords;
pub mod pieces;
pub mod summary;
pub mod tell;
pub mod text;
