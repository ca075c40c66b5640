//! The text of a handle's index: saving it to places of the caller's, and loading it beside the rows that it is of. Its one rule: a call that
//! does not do it leaves the handle what it had.
ghost use Rattle.std.specs.Prelude.{◌≡◌, ◌≢◌, ◌⊎◌, true, IfErr, IfOk, None, length, nat_le, pos};
ghost use Rattle.std.specs.Arc.{arc_value};
ghost use Rattle.saved_index.specs.IndexText.{IndexText};
ghost use Rattle.saved_index.specs.Loading.{Refuses};
ghost use Rattle.isearch_c.specs.Faults.{load_fault, rows_fit, save_fault};
ghost use Rattle.isearch_c.specs.Kept.{HasHeld, rows_in};
ghost use Rattle.isearch_c.specs.Statuses.{EndsThen};
ghost use Rattle.isearch_c.specs.Texts.{HoldText, IsOfText, serves, status_of, text_kept, text_of};
ghost use Rattle.isearch_c.specs.declared.status.Status.TheVariants.{WrongPlaces, WrongText};

use crate::building::rows_fit;
use crate::held::{Held, Searchable};
use crate::slot::IsearchIndex;
use crate::status::Status;
use outside::NoMemory;
use saved_index::{IndexFault, save};
use series_core::{Flat, Rows};
use std::alloc::Global;

/// Writes the text of an index, which `isearch_load` takes beside the same rows, and how many bytes it has.
/// 0: they stand at the first places. 1: there is no index. 7: there are fewer places than bytes, whose number is told, and nothing else is
/// written. 9: memory ran out. But for 0 and 7 nothing is written.
#[unsafe(no_mangle)]
pub extern "C" fn isearch_save(
    index: &mut IsearchIndex,
    alloc: Global,
    text: &mut [u8],
    found: &mut usize,
) -> i32
    ensures ends { let held = index.old.handle.held in let room = nat_le (length (text_kept held)) (length text.old) in
        EndsThen (save_fault held) room WrongPlaces result }
    ensures same { index.new.handle.held ≡ index.old.handle.held }
    ensures text { result ≡ pos 0 → HasHeld (λ h. HoldText (arc_value h.searchable) text.old text.new) index.old.handle.held }
    ensures kept { result ≢ pos 0 → text.new ≡ text.old }
    ensures told { (result ≡ pos 0) ⊎ (result ≡ pos 7) → found.new ≡ length (text_kept index.old.handle.held) }
    ensures untold { result ≢ pos 0 → result ≢ pos 7 → found.new ≡ found.old }
{
    let Some(held) = index.take(alloc) else {
        return Status::NoIndex.code();
    };
    let status = write_text(&held.searchable, alloc, text, found);
    *index = IsearchIndex::of(held);
    status
}

/// Writes the text of the index of a collection, where there are places for it.
fn write_text(searchable: &Searchable, alloc: Global, text: &mut [u8], found: &mut usize) -> i32
    ensures ends { let room = nat_le (length (text_of searchable.now)) (length text.old) in
        EndsThen None room WrongPlaces result }
    ensures text { result ≡ pos 0 → HoldText searchable.now text.old text.new }
    ensures kept { result ≢ pos 0 → text.new ≡ text.old }
    ensures told { (result ≡ pos 0) ⊎ (result ≡ pos 7) → found.new ≡ length (text_of searchable.now) }
    ensures untold { result ≢ pos 0 → result ≢ pos 7 → found.new ≡ found.old }
{
    let Ok(bytes) = text_in(searchable, alloc) else {
        return Status::NoMemory.code();
    };
    *found = bytes.len();
    if bytes.len() > text.len() {
        return Status::WrongPlaces.code();
    }
    text[..bytes.len()].copy_from_slice(&bytes);
    Status::Done.code()
}

/// The text of the index of a collection.
fn text_in(searchable: &Searchable, alloc: Global) -> Result<Vec<u8>, NoMemory>
    ensures sound { let s = searchable.now in
        IfOk result (λ bytes. IndexText bytes.items s.settings (length s.rows.series) s.index) }
    ensures text { IfOk result (λ bytes. bytes.items ≡ text_of searchable.now) }
{
    let count = searchable.rows.count();
    save(alloc, &searchable.settings, count, &searchable.index)
}

/// Makes an index of a text that `isearch_save` wrote, and of the rows that it was an index of, which are copied once, in a handle that has
/// none. The text tells the settings.
/// 0: the handle has the index. 2: it has one already. 3: the values are no rows. 8: the bytes are not the text of an index that fits these
/// rows. 9: memory ran out. But for 0 the handle is as it was.
#[unsafe(no_mangle)]
pub extern "C" fn isearch_load(
    index: &mut IsearchIndex,
    rows: &[i16],
    points: u32,
    text: &[u8],
    alloc: Global,
) -> i32
    ensures ends { let passes = serves (rows_in points rows.now) text.now in
        EndsThen (load_fault index.old.handle.held points (length rows.now)) passes WrongText result }
    ensures kept { result ≡ pos 0 → let c = rows_in points rows.now in
        HasHeld (λ h. IsOfText c text.now (arc_value h.searchable)) index.new.handle.held }
    ensures same { result ≢ pos 0 → index.new.handle.held ≡ index.old.handle.held }
{
    if index.is_full() {
        return Status::HasIndex.code();
    }
    if !rows_fit(points, rows.len()) {
        return Status::WrongRows.code();
    }
    match loaded(alloc, rows, points, text) {
        Ok(held) => {
            *index = IsearchIndex::of(held);
            Status::Done.code()
        }
        Err(fault) => status_of(fault).code(),
    }
}

/// The status that tells a refusal of a text.
fn status_of(fault: IndexFault) -> Status
    ensures { result ≡ status_of fault }
{
    match fault {
        IndexFault::NoMemory => Status::NoMemory,
        _ => Status::WrongText,
    }
}

/// The index of a text over rows, which are copied.
fn loaded(alloc: Global, rows: &[i16], points: u32, text: &[u8]) -> Result<Box<Held>, IndexFault>
    requires { rows_fit points (length rows.now) ≡ true }
    ensures loaded { let c = rows_in points rows.now in
        IfOk result (λ b. IsOfText c text.now (arc_value b.value.searchable)) }
    ensures refused { IfErr result (Refuses (rows_in points rows.now) text.now) }
{
    let values = rows.to_vec(alloc)?;
    let flat = Flat::from_values(points, values);
    let searchable = match Searchable::of_text(alloc, flat, text) {
        Ok(searchable) => searchable,
        Err(fault) => return Err(fault),
    };
    Ok(Held::boxed(alloc, searchable)?)
}
