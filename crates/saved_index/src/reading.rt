//! The whole text of a saved index: its header, its root children, and nothing behind them.
ghost use Rattle.std.specs.Prelude.{◌≡◌, ◌^◌, ◌<◌, ◌⊎◌, length, None, IfOk, IfErr, IsErrOf};
ghost use Rattle.saved_index.specs.Parsed.{IsSavedRead};
ghost use Rattle.saved_index.specs.Reading.{saved_in};
ghost use Rattle.saved_index.specs.declared.error.IndexFault.TheVariants.{NotIndex, NoMemory};

use crate::error::IndexFault;
use crate::header::{Fields, HEADER_BYTES, read_header};
use crate::roots::{RootsAt, read_roots};
use std::alloc::Global;

/// What bytes spell: the fields of the header, and the root children.
#[derive(Drop)]
pub(crate) struct Spelled {
    pub(crate) fields: Fields,
    pub(crate) found: RootsAt,
}

/// What the bytes are the text of.
pub(crate) fn read_saved(alloc: Global, bytes: &[u8]) -> Result<Spelled, IndexFault>
    requires { length bytes.now < 2 ^ 32 }
    ensures read { IfOk result (IsSavedRead bytes.now) }
    ensures refused { IsErrOf result NotIndex → saved_in bytes.now ≡ None }
    ensures errors { IfErr result (λ e. (e ≡ NotIndex) ⊎ (e ≡ NoMemory)) }
{
    let Some(fields) = read_header(bytes) else {
        return Err(IndexFault::NotIndex);
    };
    let found = match read_roots(
        alloc,
        bytes,
        fields.segments,
        fields.count,
        fields.roots,
        HEADER_BYTES,
    ) {
        Ok(found) => found,
        Err(e) => return Err(e),
    };
    if found.at < bytes.len() {
        return Err(IndexFault::NotIndex);
    }
    Ok(Spelled { fields, found })
}
