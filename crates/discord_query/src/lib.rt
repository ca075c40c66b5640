//! The discords of a collection: the series whose nearest other is farthest, found by workers that draw groups of series side by side.
//! A worker gives a series up as soon as another is nearer to it than what k series are known to exceed.
#![tactic(auto)]

mod discords;
mod farthest;
mod groups;
mod homes;
mod recent;
mod search;
mod team;
mod tuning;

pub use discords::{Discord, DiscordList};
pub use farthest::discord;
