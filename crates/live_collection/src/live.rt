//! A live collection, its writer and its readers, and what its calls answer.
ghost use Rattle.std.specs.Prelude.{◌≡◌, ◌+◌};
ghost use Rattle.turn_lock.specs.Passes.{opening_of, callers_of};
ghost use Rattle.live_collection.specs.PlainLive.{empty_live};

use crate::object::LiveObject;
use crate::part::PartList;
use outside::NoMemory;
use series_core::PairList;
use std::fmt::Debug;
use subtree_build::Settings;
use thiserror::Error;
use turn_lock::{TurnLock, TurnPass};

/// A collection to which one writer appends batches while readers ask.
#[derive(Drop)]
pub struct LiveCollection {
    pub(crate) lock: TurnLock<LiveObject>,
    pub(crate) settings: Settings,
    pub(crate) readers: u32,
    ghost opened: { opening_of lock ≡ empty_live settings.layout.cuts.row_length readers },
    ghost callers: { callers_of lock ≡ readers + 1 },
}

/// The one that appends. It keeps the room that the end of the collection needs.
#[derive(Drop)]
pub struct Writer {
    pub(crate) pass: TurnPass<LiveObject>,
    pub(crate) room: Vec<TurnPass<LiveObject>>,
}

/// One that asks. It keeps the parts that it has taken, a part a batch.
#[derive(Drop)]
pub struct Reader {
    pub(crate) pass: TurnPass<LiveObject>,
    pub(crate) parts: PartList,
}

/// The answer to one query.
#[derive(Debug, Drop)]
pub struct LiveReply {
    /// How many series stood.
    pub count: u32,
    /// The nearest of them, numbers counted over all batches.
    pub pairs: PairList,
}

/// Why a batch was not appended.
#[derive(Clone, Copy, Debug, PartialEq, Eq, Error)]
pub enum AppendError {
    /// So many batches and series stand, and leave no room for the batch.
    #[error("{0} batches with {1} series stand, and no room is left for the batch")]
    Full(u32, u32),
    /// Memory ran out.
    #[error("out of memory")]
    NoMemory,
}

impl From<NoMemory> for AppendError {
    ghost use Rattle.std.specs.Prelude.{◌≡◌};
    ghost use Rattle.live_collection.specs.declared.live.AppendError.TheVariants.{NoMemory as NoMemoryLeft};

    ghost from_gives = { λ _ e. e ≡ NoMemoryLeft };

    fn from(_: NoMemory) -> AppendError {
        AppendError::NoMemory
    }
}
