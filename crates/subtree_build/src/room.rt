//! Room for the means and the codes of members. It may be taken before the members are known: the system hands out such great rows of
//! memory page by page, which takes as long as a good part of the tree.
ghost use Rattle.std.specs.Prelude.{◌≡◌, ◌*◌, ◌^◌, ◌<◌, ◌≤◌, IfOk, OnOk, vec_len};
ghost use Rattle.row_codes.specs.Rows.{block_count};

use mean_bound::Means;
use outside::NoMemory;
use row_codes::{CodeBlock, block_count};
use series_core::MAX_LENGTH;
use std::alloc::Global;

/// Room for the means and the codes of members, and where more of it comes from.
#[derive(Drop)]
pub(crate) struct Room {
    pub(crate) alloc: Global,
    pub(crate) means: Vec<Means>,
    pub(crate) codes: Vec<CodeBlock>,
}

impl Room {
    /// No room. It takes no memory.
    pub(crate) fn none(alloc: Global) -> Room {
        Room {
            alloc,
            means: Vec::new(alloc),
            codes: Vec::new(alloc),
        }
    }

    /// Makes room for so many members, of whose rows so many values are coded. Where there is that much, it takes no memory.
    pub(crate) fn fit(&mut self, members: usize, coded: u32) -> Result<(), NoMemory>
        requires short { coded ≤ MAX_LENGTH }
        requires few { members < 2 ^ 32 }
        ensures means { OnOk result (vec_len self.new.means ≡ members) }
        ensures codes { OnOk result (vec_len self.new.codes ≡ members * block_count coded) }
    {
        let places = members * block_count(coded) as usize;
        self.means.resize(members, Means::zeros())?;
        self.codes.resize(places, CodeBlock::zeros())?;
        Ok(())
    }
}

/// Room for so many members, of whose rows so many values are coded.
pub(crate) fn room_for(alloc: Global, members: usize, coded: u32) -> Result<Room, NoMemory>
    requires short { coded ≤ MAX_LENGTH }
    requires few { members < 2 ^ 32 }
    ensures means { IfOk result (λ room. vec_len room.means ≡ members) }
    ensures codes { IfOk result (λ room. vec_len room.codes ≡ members * block_count coded) }
{
    let mut room = Room::none(alloc);
    room.fit(members, coded)?;
    Ok(room)
}
