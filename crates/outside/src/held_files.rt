//! The files that are held in memory, each name once.
ghost use Rattle.std.specs.Prelude.{◌≡◌, ◌<◌, ◌≤◌, ◌++◌, ℕ, List, length, min, take, position, IfSome, IfNone, OnOk, OnErr, Some, None, if◌then◌else◌};
ghost use Rattle.std.specs.Str.{bytes_eq};
ghost use Rattle.outside.specs.HeldFiles.{has_name, held_under, name_at, rest_of, moved_on, IsAmongHeld, IsPlaceOf};

use std::alloc::{AllocError, Global};

/// A file in memory.
#[derive(Drop)]
pub struct HeldFile {
    pub name: String,
    pub bytes: Vec<u8>,
}

/// The file that is open: its place among those held, and how many of its bytes were taken.
#[derive(Clone, Copy)]
pub struct OpenFile {
    pub place: usize,
    pub taken: usize,
}

/// The place of the first file of this name.
pub fn place_of(files: &[HeldFile], name: &str) -> Option<usize>
    ensures first { result ≡ position (has_name name.now) files.now }
    ensures found { IfSome result (IsPlaceOf files.now name.now) }
    ensures absent { IfNone result (held_under files.now name.now ≡ None) }
{
    first_named(files, name)
}

/// The first place at which this name stands.
fn first_named(files: &[HeldFile], name: &str) -> Option<usize>
    ensures { result ≡ position (has_name name.now) files.now }
{
    files.iter().position(|file| file.name.as_str() == name)
}

/// Takes the next bytes of the open file into the front of the buffer, at most `cap` of them, and says how many.
pub fn take_piece(files: &[HeldFile], file: OpenFile, cap: usize, buf: &mut [u8]) -> usize
    requires { IsAmongHeld files.now file }
    ensures count { result ≡ min cap (min (length buf.old) (length (rest_of files.now (Some file)))) }
    ensures taken { rest_of files.now (Some file)
        ≡ take result buf.new ++ rest_of files.now (Some (moved_on file result)) }
    ensures among_held { IsAmongHeld files.now (moved_on file result) }
{
    let rest = &files[file.place].bytes[file.taken..];
    let count = cap.min(buf.len().min(rest.len()));
    buf[..count].copy_from_slice(&rest[..count]);
    count
}

/// Holds these bytes under the name, in place of those that were held under it.
pub fn put(
    alloc: Global,
    files: &mut Vec<HeldFile>,
    name: &str,
    bytes: Vec<u8>,
) -> Result<(), AllocError>
    ensures held { OnOk result ((asked : List ℕ) → held_under files.new.items asked
        ≡ (if bytes_eq name.now asked then Some bytes.items else held_under files.old.items asked)) }
    ensures names { (place : ℕ) → place < length files.old.items
        → name_at files.new.items place ≡ name_at files.old.items place }
    ensures longer { length files.old.items ≤ length files.new.items }
    ensures err { OnErr result (files.new.items ≡ files.old.items) }
{
    match place_of(files, name) {
        Some(place) => {
            files[place].bytes = bytes;
            Ok(())
        }
        None => {
            let name = String::from_str(alloc, name)?;
            files.push(HeldFile { name, bytes })?;
            Ok(())
        }
    }
}
