//! A live collection: one writer appends batches of series while readers ask for the nearest.
//! All appends and asks stand in one history, and each answer is that of all series that stood at its ask.
#![tactic(auto)]

mod appending;
mod asking;
mod batch;
mod beginning;
mod calls;
mod closing;
mod live;
mod object;
mod part;
mod searching;
mod telling;

pub use batch::Batch;
pub use calls::{Append, Call, Reply};
pub use live::{AppendError, LiveCollection, LiveReply, Reader, Writer};
pub use object::{LiveObject, MAX_BATCHES};
pub use part::BatchPart;
