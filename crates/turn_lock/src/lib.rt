//! A lock whose holder has one call applied to one object, with one history of all calls.
//!
//! Each caller has a pass. The lock keeps, in what its proofs know, the one history of calls and replies;
//! each pass has seen a beginning of it, and `close` says that all of them fit together.
#![tactic(auto)]

mod closing;
mod dealing;
mod lock;
mod object;
mod plays;
mod telling;
mod turns;

pub use lock::{LockError, TurnLock, TurnPass};
pub use object::{Entry, Object};
