//! Writing a series file: the one text with a header that a collection has, without labels or with them.
//! A file without labels is of version 1, one with labels of version 2. The room for a text is taken at once.

ghost use Rattle.std.specs.Prelude.{◌≡◌, ◌*◌, ◌^◌, [], ◌++◌, ◌<◌, ◌≤◌, length, None, Some, IfOk, IfSome, OnOk, option_copied};
ghost use Rattle.std.specs.List.{All, flat_map, range_with_len};
ghost use Rattle.series_core.specs.Collection.{IsCollection};
ghost use Rattle.series_file.specs.Format.{SpellsFile, numbers_of, text, values_text, labels_text, value_bytes, header_one, header_two};
ghost use Rattle.series_file.specs.declared.error.Form.TheVariants.{Headed};
ghost use Rattle.series_core.specs.declared.rows.TheConstants.{MAX_LENGTH};

use byteorder::{ByteOrder, LittleEndian};
use outside::NoMemory;
use series_core::Rows;
use std::alloc::{AllocError, Global};

/// The text of the collection: that of version 1, or with labels, of which there is one a series, that of version 2.
/// With no more values than a file may have it is a series file, which is read to the same again.
pub fn write_series<R: Rows>(
    alloc: Global,
    rows: &R,
    labels: Option<&[u64]>,
) -> Result<Vec<u8>, NoMemory>
    requires narrow { option_copied labels ≡ None → (R.collection rows.now).points ≤ 65535 }
    requires each { IfSome (option_copied labels) (λ ls. length ls ≡ length (R.collection rows.now).series) }
    ensures text { IfOk result (λ bytes. bytes.items ≡ text Headed (R.collection rows.now) (option_copied labels.entry)) }
    ensures file { IfOk result (λ bytes. SpellsFile (R.collection rows.now) (option_copied labels.entry) bytes.items) }
{
    let mut bytes = room_for(alloc, rows, labels.is_some())?;
    match labels {
        None => append_header_one(&mut bytes, rows)?,
        Some(labels) => {
            append_header_two(&mut bytes, rows)?;
            append_labels(&mut bytes, labels)?;
        }
    }
    append_values(&mut bytes, rows)?;
    Ok(bytes)
}

/// The text of version 2 of the collection in which each series has its number as its label. No list of them is made.
/// With no more values than a file may have it is a series file, which is read to the same again.
pub fn write_numbered<R: Rows>(alloc: Global, rows: &R) -> Result<Vec<u8>, NoMemory>
    ensures text { IfOk result (λ bytes. bytes.items
        ≡ text Headed (R.collection rows.now) (Some (numbers_of (R.collection rows.now)))) }
    ensures file { IfOk result (λ bytes. SpellsFile (R.collection rows.now)
        (Some (numbers_of (R.collection rows.now))) bytes.items) }
{
    let mut bytes = room_for(alloc, rows, true)?;
    append_header_two(&mut bytes, rows)?;
    append_numbers(&mut bytes, rows.count())?;
    append_values(&mut bytes, rows)?;
    Ok(bytes)
}

// An empty text, with room for that of the collection, with a label for each series or without.
fn room_for<R: Rows>(alloc: Global, rows: &R, labelled: bool) -> Result<Vec<u8>, AllocError>
    ensures { IfOk result (λ bytes. bytes.items ≡ []) }
{
    let count = rows.count() as usize;
    let labels = if labelled { 8 * count } else { 0 };
    let values = 2 * rows.length() as usize * count;
    Vec::with_capacity(alloc, 16 + labels + values)
}

// Appends the header of version 1, which has two bytes for the length.
fn append_header_one<R: Rows>(bytes: &mut Vec<u8>, rows: &R) -> Result<(), AllocError>
    requires { (R.collection rows.now).points ≤ 65535 }
    ensures { OnOk result (bytes.new.items ≡ bytes.old.items ++ header_one (R.collection rows.now)) }
{
    let length = rows.length() as u16;
    let count = rows.count();
    bytes.extend_from_slice(&[73, 83, 69, 82, 1, 0])?;
    bytes.extend_from_slice(&length.to_le_bytes())?;
    bytes.extend_from_slice(&count.to_le_bytes())?;
    bytes.extend_from_slice(&[0; 4])?;
    Ok(())
}

// Appends the header of version 2.
fn append_header_two<R: Rows>(bytes: &mut Vec<u8>, rows: &R) -> Result<(), AllocError>
    ensures { OnOk result (bytes.new.items ≡ bytes.old.items ++ header_two (R.collection rows.now)) }
{
    let length = rows.length();
    let count = rows.count();
    bytes.extend_from_slice(&[73, 83, 69, 82, 2, 0])?;
    bytes.extend_from_slice(&[0; 2])?;
    bytes.extend_from_slice(&length.to_le_bytes())?;
    bytes.extend_from_slice(&count.to_le_bytes())?;
    Ok(())
}

// Appends the labels, of eight bytes each.
fn append_labels(bytes: &mut Vec<u8>, labels: &[u64]) -> Result<(), AllocError>
    ensures text { OnOk result (bytes.new.items ≡ bytes.old.items ++ labels_text labels.now) }
    ensures each { All (λ l. l < 2 ^ 64) labels.now }
{
    let start = bytes.len();
    bytes.resize(start + 8 * labels.len(), 0)?;
    LittleEndian::write_u64_into(labels, &mut bytes[start..]);
    Ok(())
}

// Appends the first `count` numbers from 0 on as labels.
fn append_numbers(bytes: &mut Vec<u8>, count: u32) -> Result<(), AllocError>
    ensures { OnOk result (bytes.new.items ≡ bytes.old.items ++ labels_text (range_with_len 0 count)) }
{
    for number in 0..count {
        bytes.extend_from_slice(&u64::from(number).to_le_bytes())?;
    }
    Ok(())
}

// Appends the values, series after series.
fn append_values<R: Rows>(bytes: &mut Vec<u8>, rows: &R) -> Result<(), AllocError>
    ensures text { OnOk result (bytes.new.items ≡ bytes.old.items ++ values_text (R.collection rows.now)) }
    ensures sound { IsCollection (R.collection rows.now) }
{
    let count = rows.count();
    for i in 0..count {
        append_row(bytes, rows.row(i))?;
    }
    Ok(())
}

// Appends the values of one series, of two bytes each.
fn append_row(bytes: &mut Vec<u8>, row: &[i16]) -> Result<(), AllocError>
    ensures { OnOk result (bytes.new.items ≡ bytes.old.items ++ flat_map value_bytes row.now) }
{
    let start = bytes.len();
    bytes.resize(start + 2 * row.len(), 0)?;
    LittleEndian::write_i16_into(row, &mut bytes[start..]);
    Ok(())
}
