//! Reading items piece by piece: as many as are wanted, or as many as the file has.
//! Memory grows with the bytes that came, never by what is wanted alone.

ghost use Rattle.std.specs.Prelude.{◌≡◌, ◌/◌, ◌%◌, ◌++◌, ◌<◌, ◌≤◌, ◌⊎◌, length, min, IfOk, IfErr, OnOk};
ghost use Rattle.std.specs.List.{All};
ghost use Rattle.series_file.specs.Items.{items_from, Comes};
ghost use Rattle.series_file.specs.Reading.{Leaves, Reads};
ghost use Rattle.series_file.specs.declared.error.FileError.TheVariants.{ReadFault, NoMemory};

use crate::error::FileError;
use crate::fill::fill;
use crate::item::Item;
use outside::Files;
use std::alloc::{AllocError, Global};

/// How many bytes are asked for at once: a whole number of values and of labels.
const PIECE: usize = 65536;

/// The items that came, and how many bytes they came in.
#[derive(Drop)]
pub struct Arrived<T> {
    /// The whole items.
    pub items: Vec<T>,
    /// The bytes that came, also those of a piece of an item at the end.
    pub bytes: u64,
}

/// Reads items through one buffer of fixed size until `want` bytes came or the file is at its end.
pub fn read_items<F: Files, T: Item>(
    alloc: Global,
    files: &mut F,
    want: u64,
) -> Result<Arrived<T>, FileError>
    requires whole_piece { PIECE % T.SIZE ≡ 0 }
    requires whole_want { want % T.SIZE ≡ 0 }
    ensures came { IfOk result (λ arrived. Comes T.at T.SIZE want (F.left files.old) (F.left files.new) arrived.items.items arrived.bytes) }
    ensures errors { IfErr result (λ e. (e ≡ ReadFault) ⊎ (e ≡ NoMemory)) }
    ensures left { IfErr result (Leaves (λ _. want) (F.left files.old) (F.left files.new)) }
    ensures files { Reads F.held F.left F.at F.blamed F.faults F.misses F.reliable result files.old files.new }
{
    let mut buffer = room(alloc, 0u8, PIECE)?;
    let mut cells = room(alloc, T::ZERO, PIECE / T::SIZE)?;
    read_pieces(alloc, files, &mut buffer, &mut cells, want)
}

// `count` copies of an item.
fn room<T: Copy>(alloc: Global, item: T, count: usize) -> Result<Vec<T>, AllocError>
    ensures { IfOk result (λ items. length items.items ≡ count) }
{
    vec![in alloc; item; count]
}

// The same through a buffer, and cells to decode its items in.
fn read_pieces<F: Files, T: Item>(
    alloc: Global,
    files: &mut F,
    buffer: &mut [u8],
    cells: &mut [T],
    want: u64,
) -> Result<Arrived<T>, FileError>
    requires some_room { 0 < length buffer.old }
    requires whole_room { length buffer.old % T.SIZE ≡ 0 }
    requires as_many { length cells.old ≡ length buffer.old / T.SIZE }
    requires whole_want { want % T.SIZE ≡ 0 }
    ensures came { IfOk result (λ arrived. Comes T.at T.SIZE want (F.left files.old) (F.left files.new) arrived.items.items arrived.bytes) }
    ensures errors { IfErr result (λ e. (e ≡ ReadFault) ⊎ (e ≡ NoMemory)) }
    ensures left { IfErr result (Leaves (λ _. want) (F.left files.old) (F.left files.new)) }
    ensures files { Reads F.held F.left F.at F.blamed F.faults F.misses F.reliable result files.old files.new }
{
    let mut items = Vec::new(alloc);
    let mut bytes = 0u64;
    while bytes < want {
        let piece = piece_of(want - bytes, buffer.len());
        let count = match fill(files, &mut buffer[..piece]) {
            Ok(count) => count,
            Err(e) => return Err(e),
        };
        append(&mut items, cells, &buffer[..count])?;
        bytes += count as u64;
        if count < piece {
            return Ok(Arrived { items, bytes });
        }
    }
    Ok(Arrived { items, bytes })
}

// How many bytes to ask for: what is wanted, and at most the buffer's length.
fn piece_of(want: u64, room: usize) -> usize
    ensures { result ≡ min want room }
{
    if want < room as u64 {
        want as usize
    } else {
        room
    }
}

// Appends the whole items that the bytes hold. The cells are room for them to be decoded in.
fn append<T: Item>(items: &mut Vec<T>, cells: &mut [T], bytes: &[u8]) -> Result<(), AllocError>
    requires { length bytes.now / T.SIZE ≤ length cells.old }
    ensures ok { OnOk result (items.new.items ≡ items.old.items ++ items_from T.at T.SIZE (length bytes.now / T.SIZE) bytes.now) }
    ensures cells { length cells.new ≡ length cells.old }
    ensures each { All (λ b. b < 256) bytes.now }
{
    let size = T::SIZE;
    let whole = bytes.len() / size;
    T::decode(&bytes[..whole * size], &mut cells[..whole]);
    items.extend_from_slice(&cells[..whole])?;
    Ok(())
}
