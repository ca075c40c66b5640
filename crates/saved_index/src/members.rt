//! The members of all leaves of a saved index in a row, leaf after leaf, as their numbers are read. A member is put down by its number, and gets
//! the full word of its series later, where it stands: so none is copied, and no leaf has a list of its own.
ghost use Rattle.std.specs.Prelude.{◌≡◌, ◌+◌, ◌*◌, ◌++◌, ◌<◌, ◌≤◌, ◌⊎◌, [], ◌∷◌, IfErr, IfOk, IsErrOf, None, drop, length};
ghost use Rattle.std.specs.List.{All};
ghost use Rattle.saved_index.specs.Membership.{IsRowFor};
ghost use Rattle.saved_index.specs.Parsed.{IsListRead};
ghost use Rattle.saved_index.specs.Reading.{numbers_in};
ghost use Rattle.saved_index.specs.declared.error.IndexFault.TheVariants.{NotIndex, NoMemory};

use crate::error::IndexFault;
use crate::numbers::read_numbers;
use breakpoints::Table;
use isax_word::{Full, Layout, Member};
use segment_sums::Cuts;
use series_core::Rows;
use std::alloc::{AllocError, Global};
use std::marker::Model;

/// The members of all leaves in a row, and how many of them each leaf has.
#[derive(Drop)]
pub(crate) struct MemberRow {
    pub(crate) counts: Vec<u32>,
    pub(crate) members: Vec<Member>,
}

/// The lists of numbers that were read so far, seen as these lists: in a row of members, and how many of them each list has and all have.
/// What stands behind these belongs to a list that was not read whole.
#[derive(Drop)]
pub(crate) struct NumberRow {
    counts: Vec<u32>,
    whole: u32,
    members: Vec<Member>,
    word: Full,
}

impl Model for NumberRow {
    ghost use Rattle.std.specs.Prelude.{ℕ, List, map};
    ghost use Rattle.saved_index.specs.Membership.{HoldsLists, cut_numbers, number_of};

    ghost Value = { List (List ℕ) };

    ghost view = { λ row. cut_numbers row.counts.items (map number_of row.members.items) };

    ghost invariant = { λ row. HoldsLists row.counts.items row.whole row.members.items };
}

/// A word that stands for that of each member until it gets its own: the word of a series of one zero.
fn passing_word() -> Full {
    let layout = Layout {
        cuts: Cuts::new(1, 1),
        table: Table::Flat,
    };
    Full::of(&layout, &[0])
}

impl NumberRow {
    /// No list, with room for so many numbers.
    pub(crate) fn with_room(alloc: Global, room: usize) -> Result<NumberRow, AllocError>
        ensures { IfOk result (λ row. row ≡ []) }
    {
        Ok(NumberRow {
            counts: Vec::new(alloc),
            whole: 0,
            members: Vec::with_capacity(alloc, room)?,
            word: passing_word(),
        })
    }

    /// How many lists there are.
    pub(crate) fn len(&self) -> usize
        ensures { result ≡ length self.now }
    {
        self.counts.len()
    }

    /// Puts the list of `many` numbers from place `from` on, strictly ascending and below `count`, behind the others, and tells the place behind
    /// it. An index has room for fewer than 2^32 members: more are out of its memory.
    pub(crate) fn read_list(
        &mut self,
        bytes: &[u8],
        from: usize,
        many: u32,
        count: u32,
    ) -> Result<usize, IndexFault>
        requires { from ≤ length bytes.now }
        ensures read { IfOk result (λ to. IsListRead bytes.now to (numbers_in many 0 count (drop from bytes.now)) self.old self.new) }
        ensures within { IfOk result (λ to. (from + 4 * many ≤ to) × (to ≤ length bytes.now)) }
        ensures refused { IsErrOf result NotIndex → numbers_in many 0 count (drop from bytes.now) ≡ None }
        ensures errors { IfErr result (λ e. (e ≡ NotIndex) ⊎ (e ≡ NoMemory)) }
    {
        if many > u32::MAX - self.whole {
            return Err(IndexFault::NoMemory);
        }
        self.members.truncate(self.whole as usize);
        let to = match read_numbers(bytes, from, many, count, self.word, &mut self.members) {
            Ok(to) => to,
            Err(e) => return Err(e),
        };
        self.counts.push(many)?;
        self.whole += many;
        Ok(to)
    }

    /// The members of these lists by their numbers, which are those of series.
    pub(crate) fn into_members<R: Rows>(self, rows: &R, layout: &Layout) -> MemberRow
        requires length { layout.now.cuts.row_length ≡ (R.collection rows.now).points }
        requires below { All (λ numbers. All (λ n. n < length (R.collection rows.now).series) numbers) self }
        ensures { IsRowFor (R.collection rows.now) layout.now self result }
    {
        let _ = rows;
        let _ = layout;
        let NumberRow {
            counts,
            whole,
            mut members,
            ..
        } = self;
        members.truncate(whole as usize);
        MemberRow { counts, members }
    }
}
