//! Building an index of rows in a handle, sharing it with another, and freeing it. Its one rule: a call that does not do it leaves each handle
//! what it had.
ghost use Rattle.std.specs.Prelude.{◌≡◌, ◌≢◌, true, IfOk, length, pos, None};
ghost use Rattle.isearch_c.specs.Faults.{build_fault, rows_fit, settings_fit, settings_of, share_fault};
ghost use Rattle.isearch_c.specs.Kept.{HasHeld, Keeps, SameKept, rows_in};
ghost use Rattle.isearch_c.specs.Statuses.{EndsBy};

use crate::held::{Held, Searchable};
use crate::settings::IsearchSettings;
use crate::slot::IsearchIndex;
use crate::status::Status;
use outside::NoMemory;
use series_core::{Flat, MAX_COUNT, MAX_LENGTH, MAX_VALUES};
use std::alloc::Global;

/// Whether so many values are some rows of `length` values, within the limits.
pub fn rows_fit(length: u32, values: usize) -> bool
    ensures { result ≡ rows_fit length values }
{
    0 < values
        && 0 < length
        && length <= MAX_LENGTH
        && values <= MAX_VALUES as usize
        && values / length as usize * length as usize == values
        && values / length as usize <= MAX_COUNT as usize
}

/// Builds an index of rows, which it copies once, in a handle that has none.
/// 0: the handle has the index. 2: it has one already. 3: the values are no rows. 4: the settings do not serve them. 9: memory ran out. But
/// for 0 the handle is as it was.
#[unsafe(no_mangle)]
pub extern "C" fn isearch_build(
    index: &mut IsearchIndex,
    rows: &[i16],
    settings: &IsearchSettings,
    alloc: Global,
) -> i32
    ensures ends { EndsBy (build_fault index.old.handle.held (length rows.now) settings.now) result }
    ensures kept { result ≡ pos 0 → let c = rows_in settings.now.length rows.now in
        HasHeld (Keeps c (settings_of settings.now)) index.new.handle.held }
    ensures same { result ≢ pos 0 → index.new.handle.held ≡ index.old.handle.held }
{
    if index.is_full() {
        return Status::HasIndex.code();
    }
    if !rows_fit(settings.length, rows.len()) {
        return Status::WrongRows.code();
    }
    if !settings.fit() {
        return Status::WrongSettings.code();
    }
    let Ok(held) = built(alloc, rows, settings) else {
        return Status::NoMemory.code();
    };
    *index = IsearchIndex::of(held);
    Status::Done.code()
}

/// An index of rows, which are copied.
fn built(alloc: Global, rows: &[i16], settings: &IsearchSettings) -> Result<Box<Held>, NoMemory>
    requires rows { rows_fit settings.now.length (length rows.now) ≡ true }
    requires settings { settings_fit settings.now ≡ true }
    ensures { let c = rows_in settings.now.length rows.now in
        IfOk result (λ b. Keeps c (settings_of settings.now) b.value) }
{
    let values = rows.to_vec(alloc)?;
    let flat = Flat::from_values(settings.length, values);
    let searchable = Searchable::of_rows(alloc, flat, &settings.settings())?;
    Held::boxed(alloc, searchable)
}

/// Gives a handle that has no index a share of another's, for another thread.
/// 0: both have it. 1: there is none to share. 2: the other handle has one already. 9: memory ran out. But for 0 both are as they were.
#[unsafe(no_mangle)]
pub extern "C" fn isearch_share(
    index: &mut IsearchIndex,
    other: &mut IsearchIndex,
    alloc: Global,
) -> i32
    ensures ends { EndsBy (share_fault index.old.handle.held other.old.handle.held) result }
    ensures same { index.new.handle.held ≡ index.old.handle.held }
    ensures shared { result ≡ pos 0 → SameKept index.old.handle.held other.new.handle.held }
    ensures kept { result ≢ pos 0 → other.new.handle.held ≡ other.old.handle.held }
{
    let Some(held) = index.take(alloc) else {
        return Status::NoIndex.code();
    };
    if other.is_full() {
        *index = IsearchIndex::of(held);
        return Status::HasIndex.code();
    }
    let more = held.another(alloc);
    *index = IsearchIndex::of(held);
    let Ok(more) = more else {
        return Status::NoMemory.code();
    };
    *other = IsearchIndex::of(more);
    Status::Done.code()
}

/// Frees what a handle has, if anything: the index itself with the last handle that has it.
#[unsafe(no_mangle)]
pub extern "C" fn isearch_free(index: &mut IsearchIndex, alloc: Global)
    ensures { index.new.handle.held ≡ None }
{
    let _held = index.take(alloc);
}
